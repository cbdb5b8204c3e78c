// The first child of a node.
ghost use Rattle.std.specs.Prelude.{◌+◌, IfOk};
ghost use Rattle.plan_core.specs.Tolled.{trees_below};
ghost use Rattle.lazy_plan.specs.Bench.{state_of, IsBenchOf, ops_of, IsSpotAt, below_at, after_at};
ghost use Rattle.lazy_steps.specs.Steps.{HasCause};
ghost use Rattle.plan_forms.specs.Forms.{makes_element};
ghost use Rattle.lazy_site.specs.Ids.{Stands, IsHead, head_trees, element_trees, here};
ghost use Rattle.lazy_site.specs.declared.sites.Site.TheVariants.{Root};
ghost use Rattle.lazy_site.specs.Steps.{Reaches};
ghost use Rattle.lazy_site.specs.Standing.{ChildStandsIn, HeadChildIn, RootChildIn, SpotChildIn, SpotNextIn};
ghost use Rattle.lazy_site.specs.Heights.{GivesRanked, IsLower, head_rank, roots_of, site_height};
ghost use Rattle.lazy_site.specs.Calls.{Between, HasFewer, WalkedTo, after_spot, kids_of_spot};

use crate::entering::enter;
use crate::origin::origin_of;
use crate::sites::{Head, Origin, Rest, Site, Turn, put};
use crate::turning::first_node;
use lazy_plan::{Bench, Cursor, WalkFault};
use lxp_core::Sources;
use plan_forms::{element_list, input_of, last};
use std::alloc::Global;
use tree_buffer::Spot;

/// The first child of a source's node.
pub(crate) fn down_spot<S: Sources>(
    alloc: Global,
    bench: &mut Bench,
    s: &mut S,
    source: u32,
    p: &Spot,
) -> Result<Option<Site>, WalkFault>
    requires bench { IsBenchOf (S.view s.old) bench.old }
    requires spot { IsSpotAt (state_of (S.view s.old) bench.old) source p.now }
    ensures walked { WalkedTo S.view S.came_from s.old bench.old s.new bench.new (λ st. kids_of_spot st source p.now) }
    ensures cause { HasCause (ops_of (state_of (S.view s.old) bench.old)) (S.view s.old) (S.view s.new) result }
    ensures answer { Between S.view s.old bench.old s.new bench.new (λ old new. IfOk result (Reaches old new (kids_of_spot old source p.now))) }
    ensures height { Between S.view s.old bench.old s.new bench.new (λ old new. IfOk result (IsLower (below_at old source p.now) new)) }
    ensures list { Between S.view s.old bench.old s.new bench.new (λ old new. IfOk result (SpotChildIn old new source p.now)) }
{
    match bench.spot_down(alloc, s, source, p)? {
        None => Ok(None),
        Some(q) => Ok(Some(Site::Inside(source, q))),
    }
}

/// The next sibling of a source's node.
pub(crate) fn right_spot<S: Sources>(
    alloc: Global,
    bench: &mut Bench,
    s: &mut S,
    source: u32,
    p: &Spot,
) -> Result<Option<Site>, WalkFault>
    requires bench { IsBenchOf (S.view s.old) bench.old }
    requires spot { IsSpotAt (state_of (S.view s.old) bench.old) source p.now }
    ensures walked { WalkedTo S.view S.came_from s.old bench.old s.new bench.new (λ st. after_spot st source p.now) }
    ensures cause { HasCause (ops_of (state_of (S.view s.old) bench.old)) (S.view s.old) (S.view s.new) result }
    ensures answer { Between S.view s.old bench.old s.new bench.new (λ old new. IfOk result (Reaches old new (after_spot old source p.now))) }
    ensures left { Between S.view s.old bench.old s.new bench.new (λ old new. IfOk result (HasFewer (after_at old source p.now) new)) }
    ensures height { Between S.view s.old bench.old s.new bench.new (λ old new. IfOk result (IsLower (after_at old source p.now) new)) }
    ensures list { Between S.view s.old bench.old s.new bench.new (λ old new. IfOk result (SpotNextIn old new source p.now)) }
{
    match bench.spot_right(alloc, s, source, p)? {
        None => Ok(None),
        Some(q) => Ok(Some(Site::Inside(source, q))),
    }
}

/// The first child of a made element.
fn down_element<S: Sources>(
    alloc: Global,
    bench: &mut Bench,
    s: &mut S,
    op: u32,
    at: &Cursor,
) -> Result<Option<Site>, WalkFault>
    requires bench { IsBenchOf (S.view s.old) bench.old }
    requires stands { Stands (state_of (S.view s.old) bench.old) op makes_element at.now }
    ensures walked { WalkedTo S.view S.came_from s.old bench.old s.new bench.new (λ st. element_trees st op at.now) }
    ensures cause { HasCause (ops_of (state_of (S.view s.old) bench.old)) (S.view s.old) (S.view s.new) result }
    ensures answer { Between S.view s.old bench.old s.new bench.new (λ old new. IfOk result (Reaches old new (element_trees old op at.now))) }
    ensures rank { IfOk result (GivesRanked op) }
    ensures list { Between S.view s.old bench.old s.new bench.new (λ old new. IfOk result (ChildStandsIn old new op at.now)) }
{
    let input = input_of(bench.plan(), op);
    let list = element_list(bench.plan(), op);
    let origin = origin_of(alloc, bench, input, at, list)?;
    let end = put(alloc, Rest::End)?;
    match enter(alloc, bench, &origin, &end)? {
        Turn::Over => Ok(None),
        Turn::At(n) => Ok(Some(n)),
        Turn::On(rest) => first_node(alloc, bench, s, &rest),
    }
}

/// The first child of a member of a list.
pub(crate) fn down_head<S: Sources>(
    alloc: Global,
    bench: &mut Bench,
    s: &mut S,
    head: &Head,
) -> Result<Option<Site>, WalkFault>
    requires bench { IsBenchOf (S.view s.old) bench.old }
    requires head { IsHead (state_of (S.view s.old) bench.old) head.now }
    ensures walked { WalkedTo S.view S.came_from s.old bench.old s.new bench.new (λ st. head_trees st head.now) }
    ensures cause { HasCause (ops_of (state_of (S.view s.old) bench.old)) (S.view s.old) (S.view s.new) result }
    ensures answer { Between S.view s.old bench.old s.new bench.new (λ old new. IfOk result (Reaches old new (head_trees old head.now))) }
    ensures height { Between S.view s.old bench.old s.new bench.new (λ old new. IfOk result (IsLower (roots_of old + head_rank head.now) new)) }
    ensures list { Between S.view s.old bench.old s.new bench.new (λ old new. IfOk result (HeadChildIn old new head.now)) }
{
    match head {
        Head::Whole(source, p) => down_spot(alloc, bench, s, *source, p),
        Head::Built { op, at } => down_element(alloc, bench, s, *op, at),
        Head::Leaf(_, _) => Ok(None),
        Head::Text { .. } => Ok(None),
    }
}

/// The first child of the root.
pub(crate) fn down_root<S: Sources>(
    alloc: Global,
    bench: &mut Bench,
    s: &mut S,
) -> Result<Option<Site>, WalkFault>
    requires bench { IsBenchOf (S.view s.old) bench.old }
    ensures walked { WalkedTo S.view S.came_from s.old bench.old s.new bench.new (λ st. trees_below (here st Root)) }
    ensures cause { HasCause (ops_of (state_of (S.view s.old) bench.old)) (S.view s.old) (S.view s.new) result }
    ensures answer { Between S.view s.old bench.old s.new bench.new (λ old new. IfOk result (Reaches old new (trees_below (here old Root)))) }
    ensures height { Between S.view s.old bench.old s.new bench.new (λ old new. IfOk result (IsLower (site_height old Root) new)) }
    ensures list { Between S.view s.old bench.old s.new bench.new (λ old new. IfOk result (RootChildIn new)) }
{
    let (input, element) = last(bench.plan());
    match bench.first(alloc, s, input)? {
        None => Ok(None),
        Some(c) => match origin_of(alloc, bench, input, &c, element)? {
            Origin::Element { op, at } => down_element(alloc, bench, s, op, &at),
            _ => Ok(None),
        },
    }
}
