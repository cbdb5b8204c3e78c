// A catalog: its sources in order, found by their names.
ghost use Rattle.std.specs.Prelude.{◌≡◌, ◌<◌, ◌≤◌, ◌++◌, ◌∷◌, [], length, take, Some, None, IfOk, OnOk, OnErr, slice_get, true};
ghost use Rattle.mix_tree.specs.Names.{IsName};
ghost use Rattle.mix_catalog.specs.Sources.{source_named, has_view, views_last, base_of, IsInPlace};

use crate::SourceSpec;
use indexmap::IndexMap;
use mix_tree::Label;
use std::alloc::{AllocError, Global};
use std::marker::Model;

/// Sources in order, seen as the list of what is said of each. A source's number is its place in it, from 0.
#[derive(Drop)]
pub struct Catalog {
    // Each source by the bytes of its name.
    sources: IndexMap<Vec<u8>, SourceSpec>,
}

impl Model for Catalog {
    ghost use Rattle.std.specs.Prelude.{List, map};
    ghost use Rattle.mix_catalog.specs.declared.source.SourceSpec.{SourceSpec};

    ghost Value = { List SourceSpec };

    ghost view = { λ c. map (λ e. e.1) c.sources.entries };

    ghost use Rattle.mix_catalog.specs.Kept.{IsKept};

    ghost invariant = { λ c. IsKept c.sources.entries };
}

impl Catalog {
    /// A catalog of no sources.
    pub(crate) fn new(alloc: Global) -> Catalog
        ensures { result ≡ [] }
    {
        Catalog {
            sources: IndexMap::new(alloc),
        }
    }

    /// How many sources there are, at most 32. Views stand after the others.
    pub fn len(&self) -> u32
        ensures len { result ≡ length self.now }
        ensures few { result ≤ 32 }
        ensures last { views_last self.now ≡ true }
    {
        self.sources.len() as u32
    }

    /// What is said of the source of a number.
    pub fn spec(&self, s: u32) -> &SourceSpec
        requires { s < length self.now }
        ensures spec { slice_get self.now s ≡ Some result.now }

        // The source has a name, and is found by it.
        ensures named { IsName result.now.name }
        ensures found { source_named self.now result.now.name ≡ Some s }
    {
        &self.sources[s as usize]
    }

    /// The number of the source of a name; `None` where no source has it.
    pub fn find(&self, name: &Label) -> Option<u32>
        ensures { result ≡ source_named self.now name.now }
    {
        let at = self.sources.get_index_of(name.bytes())?;
        Some(at as u32)
    }

    /// Whether one of the sources is a view.
    pub(crate) fn has_view(&self) -> bool
        ensures { result ≡ has_view self.now }
    {
        self.sources.values().any(|source| source.kind.is_view())
    }

    /// The catalog of the sources that are no views, with the numbers that they have here.
    pub fn base(&self, alloc: Global) -> Result<Catalog, AllocError>
        ensures base { IfOk result (λ c. c ≡ base_of self.now) }
        ensures numbers { base_of self.now ≡ take (length (base_of self.now)) self.now }
    {
        let count = self.len();
        let mut base = Catalog::new(alloc);
        for s in 0..count {
            let source = self.spec(s);
            if source.kind.is_view() {
                break;
            }
            base.add(alloc, source.copy(alloc)?)?;
        }
        Ok(base)
    }

    /// Adds a source after the others. An error leaves the catalog as it was.
    pub(crate) fn add(&mut self, alloc: Global, spec: SourceSpec) -> Result<(), AllocError>
        requires named { IsName spec.name }
        requires new { source_named self.old spec.name ≡ None }
        requires place { IsInPlace self.old spec }
        requires room { length self.old < 32 }
        ensures ok { OnOk result (self.new ≡ self.old ++ spec ∷ []) }
        ensures err { OnErr result (self.new ≡ self.old) }
    {
        let Ok(name) = Vec::from_slice(alloc, spec.name.bytes()) else {
            // The source is given to `drop`, so that how its parts are dropped is proved once.
            drop(spec);
            return Err(AllocError);
        };
        match self.sources.insert(name, spec) {
            Ok(old) => {
                drop(old);
                Ok(())
            }
            Err(failed) => {
                drop(failed);
                Err(AllocError)
            }
        }
    }
}
