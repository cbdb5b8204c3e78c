// Variables, and what nodes are grouped by.
ghost use Rattle.std.specs.Prelude.{◌≡◌};

use std::marker::Model;

/// A variable of a rule or a plan, seen as its number.
#[derive(Clone, Copy, PartialEq, Eq)]
pub struct Var(u32);

impl Model for Var {
    ghost use Rattle.std.specs.Prelude.{ℕ, ◌<◌, ◌^◌};

    ghost Value = { ℕ };

    ghost view = { λ v. v.0 };

    ghost invariant = { λ v. v.0 < 2 ^ 32 };

    ghost inverse = { λ n. record { 0 = n } };
}

impl Var {
    /// The variable of a number.
    pub fn new(number: u32) -> Var
        ensures { result ≡ number }
    {
        Var(number)
    }

    /// The number of a variable.
    pub fn number(self) -> u32
        ensures { result ≡ self }
    {
        self.0
    }
}

/// A key: nodes of a variable are the same where they are one node of one source, or where their labels are the same.
#[derive(Clone, Copy, PartialEq, Eq)]
pub enum Key {
    Node(Var),
    LabelOf(Var),
}

impl Key {
    ghost use Rattle.mix_tree.specs.Keys.{key_var};

    /// The variable of a key.
    pub fn var(self) -> Var
        ensures { result ≡ key_var self }
    {
        match self {
            Key::Node(v) | Key::LabelOf(v) => v,
        }
    }
}
