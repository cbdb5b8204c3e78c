// Bracket documents, given so many children at a time.
ghost use Rattle.std.specs.Prelude.{◌≤◌, ◌<◌, length};
ghost use Rattle.bracket_wrap.specs.Holes.{IsGivable};

use crate::holes::Rest;
use document_store::Store;
use lxp_core::{HoleId, OpenTree, SourceFault};
use source_document::Document;
use std::alloc::Global;
use table_keep::Tables;

/// A document that is given so many children at a time.
///
/// A hole stands for the children of a node from an index on. Its list has the next of them, at most a chunk, and after
/// these one hole exactly where more remain. A child is given whole where the document is deep. Else it has one hole below
/// it where it has children, and nothing where it is a leaf. The root's hole stands for the root, which is given in the
/// same two ways. No list begins with a hole.
#[derive(Drop)]
pub struct BracketDoc {
    pub(crate) nodes: Store,
    chunk: u32,
    deep: bool,
    ghost some: { 1 ≤ chunk },
    ghost rooted: { 0 < length nodes },
    ghost givable: { IsGivable nodes },
}

impl BracketDoc {
    ghost use Rattle.std.specs.Prelude.{◌≡◌, true, false, IfOk, IsErrOf, MatchOption};
    ghost use Rattle.mix_tree.specs.Forest.{LabelledTree, alone};
    ghost use Rattle.document_store.specs.Laid.{IsDocument};
    ghost use Rattle.document_store.specs.Shallow.{IsShallow};
    ghost use Rattle.lxp_core.specs.Fill.{Answers, IsRefusedAtOnce};
    ghost use Rattle.lxp_core.specs.Plain.{plain};
    ghost use Rattle.source_document.specs.Meaning.{without_tables};
    ghost use Rattle.bracket_wrap.specs.Bracket.{chunk_of, deep_of, root_hole, knows, weight, document, given, means};

    /// A document of at most 200 levels, to be given `chunk` children at a time, `deep` or not. A chunk is 1 to 1,000.
    pub fn open(nodes: Store, chunk: u32, deep: bool) -> BracketDoc
        requires shallow { IsShallow nodes }
        requires some { 1 ≤ chunk }
        requires few { chunk ≤ 1000 }
        ensures document { (root : LabelledTree) → IsDocument nodes root → document result ≡ alone root }
        ensures chunk { chunk_of result ≡ chunk }
        ensures deep { deep_of result ≡ deep }
    {
        nodes.bounds();
        BracketDoc { nodes, chunk, deep }
    }

    /// The hole that stands for the root.
    pub fn root_hole(&self) -> HoleId
        ensures { result ≡ root_hole self.now }
    {
        let top = self.nodes.len() - 1;
        Rest { node: top, to: top }.hole()
    }

    /// The list of a hole. `UnknownHole`: the document doesn't know the hole. It never answers `Failed`.
    pub fn fill(&self, alloc: Global, hole: HoleId) -> Result<Vec<OpenTree>, SourceFault>
        ensures list { IfOk result (λ list. plain list.items ≡ given self.now hole) }
        ensures answers { let doc = without_tables (means self.now) in IfOk result (λ list. Answers doc doc hole (plain list.items)) }
        ensures refused { let doc = without_tables (means self.now) in IsRefusedAtOnce _ doc doc hole result }
        ensures never_failed { ¬ IsErrOf result SourceFault.Failed }
    {
        let Some(rest) = self.rest(hole) else {
            return Err(SourceFault::UnknownHole);
        };
        Ok(self.next_children(alloc, self.chunk, self.deep, rest)?)
    }

    /// How many nodes a hole stands for; `None` exactly where the document doesn't know the hole. It takes no memory, and no
    /// time that grows with the document.
    pub fn weight(&self, hole: HoleId) -> Option<u128>
        ensures { MatchOption result (knows self.now hole ≡ false)
            (λ count. (knows self.now hole ≡ true) × (count ≡ weight self.now hole)) }
    {
        let Some(rest) = self.rest(hole) else {
            return None;
        };
        Some((rest.to - self.nodes.before(rest.node)) as u128)
    }
}

impl Document for BracketDoc {
    ghost use Rattle.std.specs.Prelude.{◌≡◌};
    ghost use Rattle.bracket_wrap.specs.Bracket.{given, means, means_kept, root_known};

    ghost means = { means };

    ghost gives = { λ v d h o. o ≡ given d h };

    fn whole(&self) -> HoleId {
        self.root_hole()
    }

    fn give<T: Tables>(
        &self,
        alloc: Global,
        _: &mut T,
        hole: HoleId,
    ) -> Result<Vec<OpenTree>, SourceFault> {
        self.fill(alloc, hole)
    }

    fn weigh(&self, hole: HoleId) -> Option<u128> {
        self.weight(hole)
    }

    ghost kept = { means_kept };

    ghost root_known = { root_known };
}
