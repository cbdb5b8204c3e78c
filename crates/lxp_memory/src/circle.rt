// Choices that come round in a circle.
ghost use Rattle.std.specs.Prelude.{◌≡◌, ◌≤◌, length, slice_index};
ghost use Rattle.lxp_memory.specs.Choice.{turn_after};

/// Bytes that are taken one after another, from the first on again when the last was taken. No bytes mean zeros.
#[derive(Drop)]
pub struct Circle {
    pub bytes: Vec<u8>,
    pub turn: usize,
    ghost within: { turn ≤ length bytes.items },
}

impl Circle {
    /// The bytes from the first on.
    pub fn new(bytes: Vec<u8>) -> Circle
        ensures bytes { result.bytes.items ≡ bytes.items }
        ensures first { result.turn ≡ 0 }
    {
        Circle { bytes, turn: 0 }
    }

    /// The byte whose turn it is.
    pub fn byte(&self) -> u8
        ensures { result ≡ slice_index self.now.bytes.items self.now.turn }
    {
        self.bytes.get(self.turn).copied().unwrap_or(0)
    }

    /// Takes the byte whose turn it is.
    pub fn step(&mut self)
        ensures bytes { self.new.bytes.items ≡ self.old.bytes.items }
        ensures turn { self.new.turn ≡ turn_after (length self.old.bytes.items) self.old.turn }
    {
        self.turn = if self.turn + 1 < self.bytes.len() {
            self.turn + 1
        } else {
            0
        };
    }
}
