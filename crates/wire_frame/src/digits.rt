// The bytes of a number that is not whole yet.
ghost use Rattle.std.specs.Prelude.{[], ◌∷◌, ◌++◌};
ghost use Rattle.wire_frame.specs.Digits.{digits_of, IsNumbered};

/// The first bytes of a number of 32 bits, the highest first.
#[derive(Clone, Copy, Debug, PartialEq, Eq)]
pub enum Digits {
    None,
    One(u8),
    Two(u8, u8),
    Three(u8, u8, u8),
}

/// What a further byte makes of the first bytes of a number.
#[derive(Clone, Copy, Debug, PartialEq, Eq)]
pub enum Numbered {
    Number(u32),
    Begun(Digits),
}

impl Digits {
    /// The number that is whole with a further byte, or its first bytes with that one.
    pub fn then(self, byte: u8) -> Numbered
        ensures { IsNumbered (digits_of self ++ (byte ∷ [])) result }
    {
        match self {
            Digits::None => Numbered::Begun(Digits::One(byte)),
            Digits::One(first) => Numbered::Begun(Digits::Two(first, byte)),
            Digits::Two(first, second) => Numbered::Begun(Digits::Three(first, second, byte)),
            Digits::Three(first, second, third) => {
                Numbered::Number(u32::from_be_bytes([first, second, third, byte]))
            }
        }
    }
}
