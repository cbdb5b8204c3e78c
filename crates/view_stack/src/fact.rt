// Facts that a type keeps of its values.
use std::marker::Brand;

/// A fact of values.
pub trait Fact<T> {
    ghost holds: { T → Type 0 };
}

// A caller of `recall` picks the fact.
impl<T> Fact<T> for Brand {
    ghost holds = { λ x. Unit {0} };
}

/// What is known of a value as an invariant of its type, where only that there is a proof is kept, is known with a proof.
pub fn recall<T, F: Fact<T>>(x: &T)
    requires { ∥ F.holds x.now ∥₁ }
    ensures { F.holds x.now }
{}
