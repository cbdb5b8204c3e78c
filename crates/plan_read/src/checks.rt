// The checks of operators that were read, in the order in which one refusal goes before another.
ghost use Rattle.std.specs.Prelude.{◌≡◌, ◌<◌, ◌≤◌, ℕ, [], List, true, false, IfOk, IfNone, MatchBool, length, map, take};
ghost use Rattle.std.specs.List.{AllByRecursion};
ghost use Rattle.mix_catalog.specs.declared.source.SourceSpec.{SourceSpec};
ghost use Rattle.plan_core.specs.Valid.{Kinds, kinds, is_single_at};
ghost use Rattle.plan_read.specs.declared.draft.Draft.{Draft};
ghost use Rattle.plan_read.specs.Checks.{ops_of, AreFew, AreNumbered, AreKnown, AreShort, AreSound, AreUsed, Ends, IsSingle, ArePlain};
ghost use Rattle.plan_read.specs.Drafts.{all_numbered, lines_of, IsPlaced, AreDrafts};
ghost use Rattle.plan_read.specs.Lines.{Line};
ghost use Rattle.plan_read.specs.Ops.{ends_by};
ghost use Rattle.plan_read.specs.Results.{Checks, LineChecks, WholeChecks};
ghost use Rattle.plan_read.specs.Scopes.{AreScopes};
ghost use Rattle.plan_read.specs.Stops.{StopsIn};

use crate::PlanFault;
use crate::draft::Draft;
use crate::ops::{has_smaller_inputs, has_source, is_destroy, is_single, is_single_at};
use crate::scopes::Scopes;
use plan_core::Op;
use std::alloc::{AllocError, Global};

// The most operators that a plan may have.
const OPERATORS: usize = 10_000;

// The line of the first operator that is one too many.
fn too_many(drafts: &[Draft]) -> Option<usize>
    ensures { StopsIn AreFew (lines_of drafts.now) result }
{
    if drafts.len() > OPERATORS {
        return Some(drafts[OPERATORS].line);
    }
    None
}

// Whether an operator has its place as its number, and inputs of smaller numbers.
fn is_placed(draft: &Draft, place: usize) -> bool
    ensures { MatchBool result (IsPlaced draft.now place) (IsPlaced draft.now place → ⊥) }
{
    draft.number as usize == place && has_smaller_inputs(&draft.op, draft.number)
}

// The first line whose operator's number isn't its place, or an input's isn't smaller.
fn misnumbered(drafts: &[Draft]) -> Option<usize>
    ensures { StopsIn (AreNumbered (all_numbered drafts.now)) (lines_of drafts.now) result }
{
    for (place, draft) in drafts.iter().enumerate() {
        if !is_placed(draft, place) {
            return Some(draft.line);
        }
    }
    None
}

// The first line with a source that there is not.
fn unknown(drafts: &[Draft], count: u32) -> Option<usize>
    ensures { StopsIn (AreKnown count (all_numbered drafts.now)) (lines_of drafts.now) result }
{
    for draft in drafts {
        if !has_source(&draft.op, count) {
            return Some(draft.line);
        }
    }
    None
}

// The first line with a path of too many label positions.
fn long_path(drafts: &[Draft]) -> Option<usize>
    ensures { StopsIn (λ k. AllByRecursion (λ (d : Draft). d.is_long ≡ false) (take k drafts.now)) (lines_of drafts.now) result }
{
    for draft in drafts {
        if draft.is_long {
            return Some(draft.line);
        }
    }
    None
}

// The first line with a variable out of range.
fn low_var(drafts: &[Draft]) -> Option<usize>
    ensures { StopsIn (λ k. AllByRecursion (λ (d : Draft). d.is_low ≡ false) (take k drafts.now)) (lines_of drafts.now) result }
{
    for draft in drafts {
        if draft.is_low {
            return Some(draft.line);
        }
    }
    None
}

// Whether the operators pass the checks of their lines alone, over so many sources.
fn check_lines(drafts: &[Draft], sources: u32) -> Result<(), PlanFault>
    ensures { (names : List (List ℕ)) (specs : List SourceSpec) (lines : List Line) → AreDrafts names specs lines drafts.now → length specs ≡ sources
        → LineChecks names specs lines (all_numbered drafts.now) result }
{
    if let Some(line) = too_many(drafts) {
        return Err(PlanFault::TooMany(line));
    }
    if let Some(line) = misnumbered(drafts) {
        return Err(PlanFault::Number(line));
    }
    if let Some(line) = unknown(drafts, sources) {
        return Err(PlanFault::UnknownSource(line));
    }
    if let Some(line) = long_path(drafts) {
        return Err(PlanFault::Positions(line));
    }
    if let Some(line) = low_var(drafts) {
        return Err(PlanFault::Variable(line));
    }
    Ok(())
}

// Goes on by all operators; the first line whose operator isn't sound.
fn unsound(
    alloc: Global,
    scopes: &mut Scopes,
    drafts: &[Draft],
) -> Result<Option<usize>, AllocError>
    ensures stops { AreNumbered (all_numbered drafts.now) (length drafts.now) → AreShort (all_numbered drafts.now) (length drafts.now)
        → AreScopes scopes.old [] (kinds (ops_of (all_numbered drafts.now)))
        → IfOk result (StopsIn (AreSound (all_numbered drafts.now)) (lines_of drafts.now)) }
    ensures scopes { AreNumbered (all_numbered drafts.now) (length drafts.now) → AreShort (all_numbered drafts.now) (length drafts.now)
        → AreScopes scopes.old [] (kinds (ops_of (all_numbered drafts.now)))
        → IfOk result (λ line. IfNone line (AreScopes scopes.new (ops_of (all_numbered drafts.now)) (kinds (ops_of (all_numbered drafts.now))))) }
{
    for draft in drafts {
        if !scopes.push(alloc, &draft.op)? {
            return Ok(Some(draft.line));
        }
    }
    Ok(None)
}

// Whether the last operator is the only `tupleDestroy`.
fn ends(drafts: &[Draft]) -> bool
    ensures { result ≡ ends_by (λ n. true) (ops_of (all_numbered drafts.now)) }
{
    for (place, draft) in drafts.iter().enumerate() {
        if is_destroy(&draft.op) {
            return place + 1 == drafts.len();
        }
    }
    false
}

// The first line whose operator is no input, but for the last.
fn unused(drafts: &[Draft], scopes: &Scopes) -> Option<usize>
    ensures { (of : ℕ → Kinds) → AreScopes scopes.now (ops_of (all_numbered drafts.now)) of
        → StopsIn (AreUsed (all_numbered drafts.now)) (lines_of drafts.now) result }
{
    for (place, draft) in drafts.iter().enumerate() {
        if place + 1 < drafts.len() && scopes.is_unused(place) {
            return Some(draft.line);
        }
    }
    None
}

// Whether the last operator is the only `tupleDestroy`, and its input has a single binding.
fn ends_single(alloc: Global, drafts: &[Draft]) -> Result<bool, AllocError>
    ensures { AreNumbered (all_numbered drafts.now) (length drafts.now)
        → IfOk result (λ single. single ≡ ends_by (is_single_at (ops_of (all_numbered drafts.now))) (ops_of (all_numbered drafts.now))) }
{
    let mut singles = Vec::new(alloc);
    for (place, draft) in drafts.iter().enumerate() {
        if let Op::TupleDestroy { input, .. } = &draft.op {
            return Ok(place + 1 == drafts.len() && is_single_at(&singles, *input));
        }
        singles.push(is_single(&draft.op, &singles))?;
    }
    Ok(false)
}

// Whether operators that pass the checks of their lines are valid together.
fn check_whole(alloc: Global, drafts: &[Draft]) -> Result<(), PlanFault>
    ensures { (names : List (List ℕ)) (specs : List SourceSpec) (lines : List Line) → AreDrafts names specs lines drafts.now
        → ArePlain names specs lines (all_numbered drafts.now) → WholeChecks names specs lines (all_numbered drafts.now) result }
{
    let mut scopes = Scopes::new(alloc);
    if let Some(line) = unsound(alloc, &mut scopes, drafts)? {
        return Err(PlanFault::Invalid(line));
    }
    if !ends(drafts) {
        return Err(PlanFault::End);
    }
    if let Some(line) = unused(drafts, &scopes) {
        return Err(PlanFault::Unused(line));
    }
    if !ends_single(alloc, drafts)? {
        return Err(PlanFault::NotSingle);
    }
    Ok(())
}

/// Whether operators of lines are a valid plan, over so many sources.
pub fn check(alloc: Global, drafts: &[Draft], sources: u32) -> Result<(), PlanFault>
    ensures { (names : List (List ℕ)) (specs : List SourceSpec) (lines : List Line) → AreDrafts names specs lines drafts.now → length specs ≡ sources
        → Checks names specs lines (all_numbered drafts.now) result }
{
    check_lines(drafts, sources)?;
    check_whole(alloc, drafts)
}
