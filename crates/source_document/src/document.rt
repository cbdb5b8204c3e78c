// What a mounted document answers.
ghost use Rattle.std.specs.Prelude.{◌≡◌, true, false, IfOk, MatchOption};
ghost use Rattle.lxp_core.specs.Fill.{Answers, IsRefusedAtOnce};
ghost use Rattle.lxp_core.specs.declared.open_tree.HoleId.{HoleId};
ghost use Rattle.lxp_core.specs.Open.{Open};
ghost use Rattle.lxp_core.specs.Plain.{plain};
ghost use Rattle.table_keep.specs.Views.{KeepsTables, TablesView};
ghost use Rattle.source_document.specs.Meaning.{IsKept, IsPaged, Meaning, over};

use lxp_core::{HoleId, OpenTree, SourceFault};
use std::alloc::Global;
use table_keep::Tables;

/// A document that is given piece by piece, of whatever kind: it lies in memory, or is asked of tables page by page. A fill changes
/// nothing of the document itself. docs/ARCHITECTURE.md, "A kind of source".
pub trait Document {
    /// What the document means.
    ghost means: { Self → Meaning };

    /// `gives v document hole list`: over tables that mean `v` a fill of the hole may be answered with this list.
    ghost gives: { TablesView → Self → HoleId → Open → Type 0 };

    /// The hole that stands for the whole document.
    fn whole(&self) -> HoleId
        ensures { result ≡ (means self.now).root };

    /// The trees that a hole stands for, with holes again. `Failed`: the page of rows could not be read, and the count of faults of the
    /// document's table rose; the same hole may be asked for again. `UnknownHole`: the document doesn't know the hole. A fill asks one
    /// page at most, and none where its hole asks none.
    fn give<T: Tables>(
        &self,
        alloc: Global,
        tables: &mut T,
        hole: HoleId,
    ) -> Result<Vec<OpenTree>, SourceFault>
        ensures keeps { KeepsTables (T.view tables.old) (T.view tables.new) }
        ensures list { IfOk result (λ list. gives (T.view tables.old) self.now hole (plain list.items)) }
        ensures answers { let before = over (means self.now) (T.view tables.old) in let after = over (means self.now) (T.view tables.new) in
            IfOk result (λ list. Answers before after hole (plain list.items)) }
        ensures refused { IsRefusedAtOnce _ (over (means self.now) (T.view tables.old)) (over (means self.now) (T.view tables.new)) hole result }
        ensures untouched { (means self.now).asks hole ≡ false → tables.new ≡ tables.old }
        ensures paged { IsPaged (means self.now).rows (T.view tables.old) (T.view tables.new) };

    /// How many nodes a hole stands for at most; `None` exactly where the document doesn't know the hole. It takes no memory, and no
    /// time that grows with the document.
    fn weigh(&self, hole: HoleId) -> Option<u128>
        ensures { let m = means self.now in MatchOption result (m.knows hole ≡ false)
            (λ weight. (m.knows hole ≡ true) × (weight ≡ m.weight hole)) };

    /// Where tables keep what every call keeps, the document means the same over them.
    ghost kept: { (d : Self) → IsKept (means d) };

    /// A document knows the hole that stands for all of it.
    ghost root_known: { (d : Self) → (means d).knows (means d).root ≡ true };
}
