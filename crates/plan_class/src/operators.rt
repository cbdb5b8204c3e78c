// What is known of an operator, from what is known of those before it.
ghost use Rattle.std.specs.Prelude.{◌≡◌, IfOk, length};
ghost use Rattle.plan_core.specs.FrontsKept.{front_in};
ghost use Rattle.plan_core.specs.PlanMade.{op_of};
ghost use Rattle.plan_core.specs.Shapes.{shape_of};
ghost use Rattle.browse_class.specs.Facts.{tested};
ghost use Rattle.plan_core.specs.Valid.{AreDistinct, inputs_of};
ghost use Rattle.plan_class.specs.Known.{source_known, visits_known, pairs_known, tested_levels, over_known, shape_known, IsShort};
ghost use Rattle.plan_class.specs.Slots.{kept_at, emptied};
ghost use Rattle.plan_class.specs.VarDomains.{domain_in};

use crate::domain::{Domain, one_item};
use crate::domains::Domains;
use crate::known::Known;
use crate::levels::{FrontSize, Levels, own_level, pair_levels, visit_levels};
use crate::so_far::SoFar;
use crate::stages::{
    extended_known, group_known, grouped_known, kept_known, ordered_known, pieces_profile,
    selected_known,
};
use crate::visit::{Visit, visit_along};
use browse_profile::Profile;
use browse_visit::{Shape, Sorts, first_sort};
use mix_tree::{Key, Test, Var};
use plan_core::Op;
use plan_core::fronts::Fronts;
use std::alloc::{AllocError, Global};

// What is known of a source.
fn source_known(alloc: Global, shapes: &[Shape], source: u32, out: Var) -> Known
    ensures { result ≡ source_known shapes.now source out }
{
    let levels = Levels::same(alloc, Profile::unbounded());
    let one = Known::new(Profile::one_binding(), Vec::new(alloc), levels);
    let sort = first_sort(shapes, source as usize);
    one.binding(out, Domain::of_nodes(source, Sorts::only(sort)))
}

// The size of the front of a number.
fn front_size(fronts: &Fronts, n: u32) -> FrontSize
    ensures vars { result.vars ≡ length (front_in fronts.now n).vars }
    ensures whole { result.whole ≡ (front_in fronts.now n).whole }
{
    FrontSize {
        vars: fronts.vars(n).len(),
        whole: fronts.is_whole(n),
    }
}

// What is known of visits below each binding of an input with a front of this size. `Err`: memory.
fn visits_known(
    alloc: Global,
    out: Var,
    visit: Visit,
    front: FrontSize,
    input: Known,
) -> Result<Known, AllocError>
    ensures { IfOk result (λ k. k ≡ visits_known out visit front.vars front.whole input) }
{
    let levels = visit_levels(alloc, front, input.profile, visit.profile)?;
    let profile = input.profile.replaced(visit.profile);
    let mut keys = input.keys;
    keys.push(Key::Node(out))?;
    Ok(Known::new(profile, keys, levels).binding(out, visit.found))
}

// Where there are comparisons, bindings may be passed over.
fn tested(tests: &[Test], profile: Profile) -> Profile
    ensures { result ≡ tested tests.now profile }
{
    if tests.is_empty() {
        profile
    } else {
        profile.passed()
    }
}

// The levels of pairs, which are these where there are no comparisons.
fn tested_levels(alloc: Global, tests: &[Test], profile: Profile, levels: Levels) -> Levels
    ensures { result ≡ tested_levels tests.now profile levels }
{
    if tests.is_empty() {
        levels
    } else {
        Levels::same(alloc, own_level(profile))
    }
}

// What is known of a join, of which the left side has a front of this size. `Err`: memory.
fn pairs_known(
    alloc: Global,
    tests: &[Test],
    front: FrontSize,
    left: Known,
    right: Known,
) -> Result<Known, AllocError>
    ensures { IfOk result (λ k. k ≡ pairs_known tests.now front.vars front.whole left right) }
{
    let beside = Profile::one_skip().in_turn(right.profile);
    let profile = tested(tests, left.profile.replaced(beside));
    let levels = pair_levels(alloc, front, left.profile, &right.levels)?;
    let levels = tested_levels(alloc, tests, profile, levels);
    let mut keys = left.keys;
    keys.extend_from_slice(&right.keys)?;
    Ok(Known::new(profile, keys, levels))
}

// What is known after an operator with one input, which has a front of these variables; of any other, no events. `Err`: memory.
fn over_known(
    alloc: Global,
    domains: &Domains,
    vars: &[Var],
    input: Known,
    op: &Op,
) -> Result<Known, AllocError>
    ensures { IfOk result (λ k. k ≡ over_known (domain_in domains.now) vars.now input (shape_of (op_of op.now))) }
{
    match op {
        Op::Select { .. } => Ok(selected_known(alloc, input)),
        Op::OrderBy { .. } => Ok(ordered_known(alloc, input)),
        Op::Project { keys, .. } => kept_known(alloc, keys, vars, input),
        Op::GroupBy { keys, out, .. } if keys.is_empty() => Ok(group_known(alloc, *out, &input)),
        Op::GroupBy { keys, out, .. } => grouped_known(alloc, keys, vars, *out, input),
        Op::Concatenate { pieces, out, .. } => {
            Ok(extended_known(*out, pieces_profile(domains, pieces), input))
        }
        Op::CreateElement { out, .. } => Ok(extended_known(*out, one_item(), input)),
        _ => Ok(Known::ended(alloc)),
    }
}

/// What is known of an operator, from what is kept of those before it, of which its inputs are no longer, and their fronts. `Err`: memory.
pub fn op_known(
    alloc: Global,
    shapes: &[Shape],
    fronts: &Fronts,
    so_far: &mut SoFar,
    op: &Op,
) -> Result<Known, AllocError>
    requires short { IsShort (op_of op.now) }
    requires apart { AreDistinct (inputs_of (op_of op.now)) }
    ensures known { IfOk result (λ k. k ≡
        shape_known shapes.now (front_in fronts.now) (domain_in so_far.old.domains) (kept_at so_far.old.slots.items) (shape_of (op_of op.now))) }
    ensures slots { so_far.new.slots.items ≡ emptied so_far.old.slots.items (inputs_of (op_of op.now)) }
    ensures domains { so_far.new.domains ≡ so_far.old.domains }
{
    match op {
        Op::Source { source, out } => Ok(source_known(alloc, shapes, *source, *out)),
        Op::GetDescendants {
            input,
            start,
            path,
            out,
        } => {
            let below = so_far.take(alloc, *input);
            let visit = visit_along(alloc, shapes, path, so_far.domains.of(*start))?;
            visits_known(alloc, *out, visit, front_size(fronts, *input), below)
        }
        Op::Join { left, right, tests } => {
            let front = front_size(fronts, *left);
            let left = so_far.take(alloc, *left);
            let right = so_far.take(alloc, *right);
            pairs_known(alloc, tests, front, left, right)
        }
        Op::Select { input, .. }
        | Op::OrderBy { input, .. }
        | Op::Project { input, .. }
        | Op::GroupBy { input, .. }
        | Op::Concatenate { input, .. }
        | Op::CreateElement { input, .. }
        | Op::TupleDestroy { input, .. } => {
            let below = so_far.take(alloc, *input);
            over_known(alloc, &so_far.domains, fronts.vars(*input), below, op)
        }
    }
}
