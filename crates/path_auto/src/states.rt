// Sets of the states of an automaton.
ghost use Rattle.std.specs.Prelude.{◌≡◌};

use std::marker::Model;

/// A set of the states of a path's automaton, seen as the number whose bits tell which of them are in it. It is kept in two words, which
/// lie closer among other fields than one of 128 bits.
#[derive(Clone, Copy, Debug, PartialEq, Eq)]
pub struct StateSet {
    low: u64,
    high: u64,
}

impl Model for StateSet {
    ghost use Rattle.std.specs.Prelude.{ℕ, ◌<◌, ◌+◌, ◌*◌, ◌^◌, ◌/◌, ◌%◌};
    ghost use Rattle.std.proofs.Common.{ap, ◌∙◌};
    ghost use Rattle.std.proofs.lemmas.Nat.{mod-mul-add, div-mul-add};

    ghost Value = { ℕ };

    ghost view = { λ s. s.high * 2 ^ 64 + s.low };

    ghost invariant = { λ s. (s.low < 2 ^ 64) × (s.high < 2 ^ 64) };

    ghost inverse = { λ n. record { low = n % 2 ^ 64; high = n / 2 ^ 64 } };

    ghost inverse_ok = { λ s h. ap (λ low. record s { low = low; high = (s.high * 2 ^ 64 + s.low) / 2 ^ 64 }) (mod-mul-add s.high (2 ^ 64) s.low h.0)
        ∙ ap (λ high. record s { high = high }) (div-mul-add s.high (2 ^ 64) s.low h.0) };
}

impl StateSet {
    // The set of states whose bits are those of the number.
    pub(crate) fn new(bits: u128) -> StateSet
        ensures { result ≡ bits }
    {
        StateSet {
            low: (bits % (1 << 64)) as u64,
            high: (bits / (1 << 64)) as u64,
        }
    }

    // The bits of the set, as one number.
    pub(crate) fn bits(self) -> u128
        ensures { result ≡ self }
    {
        self.high as u128 * (1 << 64) + self.low as u128
    }
}
