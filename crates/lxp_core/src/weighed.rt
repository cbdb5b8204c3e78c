// Sources that tell the weights of their holes.
ghost use Rattle.std.specs.Prelude.{◌≡◌, ◌<◌, ℕ, true, false, MatchOption};

use crate::{HoleId, Sources};

/// Sources that tell the weights of their holes, and whose lists are small enough for a wire: they have at most 200 levels,
/// and each label and each list is shorter than 2^32.
pub trait Weighed: Sources {
    /// The weight of a hole of a source; `None` exactly where the source doesn't know the hole.
    fn weight(&self, s: u32, hole: HoleId) -> Option<u128>
        requires { s < (Self.view self.now).count }
        ensures { let v = Self.view self.now in MatchOption result (v.knows s hole ≡ false)
            (λ weight. (v.knows s hole ≡ true) × (weight ≡ v.weight s hole)) };

    /// Each list that a fill answers is small.
    ghost all_small: { (a : Self) (s : ℕ) → s < (Self.view a).count → (Self.view a).small s ≡ true };
}
