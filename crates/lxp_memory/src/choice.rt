// How the list of a hole is cut.
ghost use Rattle.std.specs.Prelude.{◌≡◌};
ghost use Rattle.lxp_memory.specs.Choice.{choice_of, in_chunks, wants_hole};

/// How the list of a hole is cut.
#[derive(Clone, Copy)]
pub struct Choice {
    /// Whether the list begins with a hole.
    pub leads: bool,
    /// For how many children the hole at the beginning of the list stands. One child at least is left.
    pub skipped: usize,
    /// How many children the list has at most.
    pub most: usize,
    /// Whether a hole stands also where no child is left for it.
    pub trails: bool,
    /// Whether the children are whole subtrees.
    pub whole: bool,
}

impl Choice {
    /// What a byte says, from its lowest bit on: whether the list leads with a hole, unless the source is forward,
    /// whether it trails with one, whether subtrees are whole, how many children more than one, how many to skip.
    pub fn new(byte: u8, forward: bool) -> Choice
        ensures { result ≡ choice_of byte forward }
    {
        let leads = !forward && byte % 2 == 1;
        Choice {
            leads,
            skipped: if leads { (byte / 64) as usize } else { 0 },
            most: 1 + (byte / 8 % 8) as usize,
            trails: byte / 2 % 2 == 1,
            whole: byte / 4 % 2 == 1,
        }
    }

    /// Lists of at most so many children, with a hole after them where more remain.
    pub fn in_chunks(most: usize, whole: bool) -> Choice
        ensures { result ≡ in_chunks most whole }
    {
        Choice {
            leads: false,
            skipped: 0,
            most,
            trails: false,
            whole,
        }
    }

    /// Whether a hole is to stand for so many children.
    pub fn wants_hole(&self, count: usize) -> bool
        ensures { result ≡ wants_hole self.now count }
    {
        self.trails || count > 0
    }
}
