// The first child and the next sibling of a node.
ghost use Rattle.std.specs.Prelude.{IfOk};
ghost use Rattle.plan_core.specs.Tolled.{trees_below, trees_after};
ghost use Rattle.lazy_plan.specs.Bench.{state_of, IsBenchOf, ops_of};
ghost use Rattle.lazy_steps.specs.Steps.{HasCause};
ghost use Rattle.lazy_site.specs.Ids.{IsSite, here, site_left};
ghost use Rattle.lazy_site.specs.Steps.{Reaches};
ghost use Rattle.lazy_site.specs.Heights.{IsLower, IsNoHigher, site_height};
ghost use Rattle.lazy_site.specs.Standing.{SiteChildIn, SiteNextIn};
ghost use Rattle.lazy_site.specs.Calls.{Between, HasFewer, WalkedTo};

use crate::down::{down_head, down_root, down_spot, right_spot};
use crate::sites::Site;
use crate::turning::first_node;
use lazy_plan::{Bench, WalkFault};
use lxp_core::Sources;
use std::alloc::Global;

/// The first child of the node at which an identifier stands.
pub fn first_child<S: Sources>(
    alloc: Global,
    bench: &mut Bench,
    s: &mut S,
    site: &Site,
) -> Result<Option<Site>, WalkFault>
    requires bench { IsBenchOf (S.view s.old) bench.old }
    requires site { IsSite (state_of (S.view s.old) bench.old) site.now }
    ensures walked { WalkedTo S.view S.came_from s.old bench.old s.new bench.new (λ st. trees_below (here st site.now)) }
    ensures cause { HasCause (ops_of (state_of (S.view s.old) bench.old)) (S.view s.old) (S.view s.new) result }
    ensures answer { Between S.view s.old bench.old s.new bench.new (λ old new. IfOk result (Reaches old new (trees_below (here old site.now)))) }
    ensures height { Between S.view s.old bench.old s.new bench.new (λ old new. IfOk result (IsLower (site_height old site.now) new)) }
    ensures list { Between S.view s.old bench.old s.new bench.new (λ old new. IfOk result (SiteChildIn old new site.now)) }
{
    match site {
        Site::Root => down_root(alloc, bench, s),
        Site::Inside(source, p) => down_spot(alloc, bench, s, *source, p),
        Site::Item { head, .. } => down_head(alloc, bench, s, head),
    }
}

/// The next sibling of the node at which an identifier stands.
pub fn next_sibling<S: Sources>(
    alloc: Global,
    bench: &mut Bench,
    s: &mut S,
    site: &Site,
) -> Result<Option<Site>, WalkFault>
    requires bench { IsBenchOf (S.view s.old) bench.old }
    requires site { IsSite (state_of (S.view s.old) bench.old) site.now }
    ensures walked { WalkedTo S.view S.came_from s.old bench.old s.new bench.new (λ st. trees_after (here st site.now)) }
    ensures cause { HasCause (ops_of (state_of (S.view s.old) bench.old)) (S.view s.old) (S.view s.new) result }
    ensures answer { Between S.view s.old bench.old s.new bench.new (λ old new. IfOk result (Reaches old new (trees_after (here old site.now)))) }
    ensures left { Between S.view s.old bench.old s.new bench.new (λ old new. IfOk result (HasFewer (site_left old site.now) new)) }
    ensures height { Between S.view s.old bench.old s.new bench.new (λ old new. IfOk result (IsNoHigher (site_height old site.now) new)) }
    ensures list { Between S.view s.old bench.old s.new bench.new (λ old new. IfOk result (SiteNextIn old new site.now)) }
{
    match site {
        Site::Root => Ok(None),
        Site::Inside(source, p) => right_spot(alloc, bench, s, *source, p),
        Site::Item { rest, .. } => first_node(alloc, bench, s, rest),
    }
}
