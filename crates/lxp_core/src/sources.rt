// What a source answers.
ghost use Rattle.std.specs.Prelude.{◌≡◌, ◌<◌, ℕ, true, IfOk};
ghost use Rattle.lxp_core.specs.Fill.{Answers, IsCounted, IsRefused, source_of};
ghost use Rattle.lxp_core.specs.Plain.{plain};
ghost use Rattle.lxp_core.specs.View.{View, Keeps};

use crate::{HoleId, OpenTree, SourceFault};
use std::alloc::Global;

/// Documents that are given piece by piece: a fill asks for the trees that a hole stands for, and is answered with
/// trees that may have holes again.
pub trait Sources {
    /// What a state of the sources means.
    ghost view: { Self → View };

    /// `came_from old new` is read "from old came new": calls led from the old state to the new one.
    ghost came_from: { Self → Self → Type 0 };

    /// How many sources there are. They are numbered from 0.
    fn count(&self) -> u32
        ensures { result ≡ (view self.now).count };

    /// The hole that stands for the whole document of a source.
    fn get_root(&self, s: u32) -> HoleId
        requires { s < (view self.now).count }
        ensures { result ≡ (view self.now).root s };

    /// The trees that a hole of a source stands for, with holes again. `Failed`: the source failed, and its count of
    /// faults rose. `UnknownHole`: the source doesn't know the hole. After any of them every hole that was known is
    /// known and stands for the same trees.
    fn fill(&mut self, alloc: Global, s: u32, hole: HoleId) -> Result<Vec<OpenTree>, SourceFault>
        requires { s < (view self.old).count }
        ensures came { came_from self.old self.new }
        ensures answers { let before = source_of (view self.old) s in let after = source_of (view self.new) s in
            IfOk result (λ list. Answers before after hole (plain list.items)) }
        ensures refused { IsRefused _ (source_of (view self.old) s) (source_of (view self.new) s) hole result }
        ensures counted { IsCounted _ (view self.old).fills (view self.new).fills result };

    /// A state came from itself.
    ghost same: { (a : Self) → came_from a a };

    /// A state that came from one which came from a third came from that third.
    ghost after: { (a b c : Self) → came_from a b → came_from b c → came_from a c };

    /// A state keeps what every call keeps of each state that it came from.
    ghost keeps: { (a b : Self) → came_from a b → Keeps (view a) (view b) };

    /// A source knows the hole of its whole document.
    ghost root_known: { (a : Self) (s : ℕ) → s < (view a).count → (view a).knows s ((view a).root s) ≡ true };
}
