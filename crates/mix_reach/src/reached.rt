// Mounted documents beside sources of other machines, as sources.
ghost use Rattle.std.specs.Prelude.{◌<◌, ◌^◌, length};

use crate::Site;
use crate::site::far_at;
use far_keep::{Fars, far_root};
use lxp_core::{HoleId, OpenTree, SourceFault, Sources, Weighed};
use mix_mount::Mounted;
use std::alloc::Global;
use table_keep::Tables;

/// Mounted documents beside sources of other machines, as sources, numbered as the mounted ones. Where the site of a number is another
/// machine, the source there is asked, and never what is mounted at the number. A number without a site is that of a source here.
#[derive(Drop)]
pub struct Reached<T, R> {
    mounted: Mounted<T>,
    sites: Vec<Site>,
    fars: R,
    fills: u64,
}

impl<T, R> Reached<T, R> {
    ghost use Rattle.std.specs.Prelude.{◌≡◌};

    /// Sources of which no fill was asked.
    pub fn new(mounted: Mounted<T>, sites: Vec<Site>, fars: R) -> Reached<T, R>
        ensures mounted { result.mounted ≡ mounted }
        ensures sites { result.sites.items ≡ sites.items }
        ensures fars { result.fars ≡ fars }
        ensures fills { result.fills ≡ 0 }
    {
        Reached {
            mounted,
            sites,
            fars,
            fills: 0,
        }
    }

    /// How many fills were asked; the count stands still at its end, 2^64 - 1.
    pub fn fills(&self) -> u64
        ensures { result ≡ self.now.fills }
    {
        self.fills
    }

    /// What is mounted, and the sources of other machines, as the last fill left them.
    pub fn into_parts(self) -> (Mounted<T>, R)
        ensures { result ≡ (self.mounted, self.fars) }
    {
        (self.mounted, self.fars)
    }
}

impl<T: Tables, R: Fars> Reached<T, R> {
    ghost use Rattle.std.specs.Prelude.{◌≡◌, ◌<◌, false, IfOk};
    ghost use Rattle.lxp_core.specs.Fill.{Answers, IsRefused, source_of};
    ghost use Rattle.lxp_core.specs.Plain.{plain};
    ghost use Rattle.source_document.specs.Meaning.{IsPaged};
    ghost use Rattle.mix_mount.specs.Mounts.{tables_of};
    ghost use Rattle.mix_reach.specs.Reach.{CameUncounted, asks_at, reaching_in, rows_of_fill_at, site_at, view_of};

    // The list that answers a fill of a source's hole. The fill isn't counted yet.
    fn give(&mut self, alloc: Global, s: u32, hole: HoleId) -> Result<Vec<OpenTree>, SourceFault>
        requires { s < (view_of (reaching_in T.view R.view self.old)).count }
        ensures came { CameUncounted (reaching_in T.view R.view self.old) (reaching_in T.view R.view self.new) }
        ensures untouched { let old = reaching_in T.view R.view self.old in asks_at old.mounted s (site_at old.sites s) hole ≡ false
            → tables_of self.new.mounted ≡ tables_of self.old.mounted }
        ensures paged { let old = reaching_in T.view R.view self.old in let new = reaching_in T.view R.view self.new in
            IsPaged (rows_of_fill_at old.mounted s (site_at old.sites s)) old.mounted.tables new.mounted.tables }
        ensures answers { let before = source_of (view_of (reaching_in T.view R.view self.old)) s in
            let after = source_of (view_of (reaching_in T.view R.view self.new)) s in
            IfOk result (λ list. Answers before after hole (plain list.items)) }
        ensures refused { let before = source_of (view_of (reaching_in T.view R.view self.old)) s in
            let after = source_of (view_of (reaching_in T.view R.view self.new)) s in
            IsRefused _ before after hole result }
    {
        match far_at(&self.sites, s) {
            Some(far) => self.fars.fill(alloc, far, hole),
            None => self.mounted.fill(alloc, s, hole),
        }
    }
}

impl<T: Tables, R: Fars> Sources for Reached<T, R> {
    ghost use Rattle.std.specs.Prelude.{◌≡◌, ◌<◌, false, IfOk};
    ghost use Rattle.lxp_core.specs.Fill.{Answers, IsCounted, IsRefused, source_of};
    ghost use Rattle.lxp_core.specs.Plain.{plain};
    ghost use Rattle.source_document.specs.Meaning.{IsPaged};
    ghost use Rattle.mix_mount.specs.Mounts.{tables_of};
    ghost use Rattle.mix_reach.specs.Reach.{asks_at, reaching_in, rows_of_fill_at, site_at, view_of, CameFrom, came_same, came_after, came_keeps, reached_root_known};

    ghost view = { λ r. view_of (reaching_in T.view R.view r) };

    ghost came_from = { λ old new. CameFrom (reaching_in T.view R.view old) (reaching_in T.view R.view new) };

    fn count(&self) -> u32 {
        self.mounted.count()
    }

    fn get_root(&self, s: u32) -> HoleId {
        match far_at(&self.sites, s) {
            Some(_) => far_root(),
            None => self.mounted.get_root(s),
        }
    }

    fn fill(&mut self, alloc: Global, s: u32, hole: HoleId) -> Result<Vec<OpenTree>, SourceFault>
        requires { s < (view_of (reaching_in T.view R.view self.old)).count }
        ensures came { CameFrom (reaching_in T.view R.view self.old) (reaching_in T.view R.view self.new) }
        ensures answers { let before = source_of (view_of (reaching_in T.view R.view self.old)) s in
            let after = source_of (view_of (reaching_in T.view R.view self.new)) s in
            IfOk result (λ list. Answers before after hole (plain list.items)) }
        ensures refused { let before = source_of (view_of (reaching_in T.view R.view self.old)) s in
            let after = source_of (view_of (reaching_in T.view R.view self.new)) s in
            IsRefused _ before after hole result }
        ensures counted { IsCounted _ self.old.fills self.new.fills result }
        // The pages: a fill of rows of a table asks for one, of no more rows than the table's chunk, and no other fill touches the tables.
        ensures untouched { let old = reaching_in T.view R.view self.old in asks_at old.mounted s (site_at old.sites s) hole ≡ false
            → tables_of self.new.mounted ≡ tables_of self.old.mounted }
        ensures paged { let old = reaching_in T.view R.view self.old in let new = reaching_in T.view R.view self.new in
            IsPaged (rows_of_fill_at old.mounted s (site_at old.sites s)) old.mounted.tables new.mounted.tables }
    {
        let answer = self.give(alloc, s, hole);
        self.fills = self.fills.saturating_add(1);
        answer
    }

    ghost same = { λ a. came_same (reaching_in T.view R.view a) };

    ghost after = { λ a b c x y. came_after (reaching_in T.view R.view a) (reaching_in T.view R.view b) (reaching_in T.view R.view c) x y };

    ghost keeps = { λ a b x. came_keeps (reaching_in T.view R.view a) (reaching_in T.view R.view b) x };

    ghost root_known = { λ a s h. reached_root_known (reaching_in T.view R.view a) (R.root_known a.fars) s h };
}

impl<T: Tables, R: Fars> Weighed for Reached<T, R> {
    ghost use Rattle.std.specs.Prelude.{◌≡◌, ◌<◌, true, false, MatchOption};
    ghost use Rattle.mix_reach.specs.Reach.{all_small, reaching_in, view_of};

    fn weight(&self, s: u32, hole: HoleId) -> Option<u128>
        requires { s < (view_of (reaching_in T.view R.view self.now)).count }
        ensures { let v = view_of (reaching_in T.view R.view self.now) in MatchOption result (v.knows s hole ≡ false)
            (λ count. (v.knows s hole ≡ true) × (count ≡ v.weight s hole)) }
    {
        match far_at(&self.sites, s) {
            Some(far) => self.fars.weight(far, hole),
            None => self.mounted.weight(s, hole),
        }
    }

    ghost all_small = { λ a s h. all_small (reaching_in T.view R.view a) s h };
}
