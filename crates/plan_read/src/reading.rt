// Reading the plan that a text spells.
ghost use Rattle.std.specs.Prelude.{◌≡◌, ◌++◌, ◌∷◌, ℕ, [], IfOk, List, Result, length, map};
ghost use Rattle.std.specs.List.{AllByRecursion};
ghost use Rattle.mix_catalog.specs.declared.source.SourceSpec.{SourceSpec};
ghost use Rattle.plan_core.specs.PlanMade.{op_of};
ghost use Rattle.plan_core.specs.Plans.{PlanValue};
ghost use Rattle.plan_read.specs.Checks.{ops_of};
ghost use Rattle.plan_read.specs.Drafts.{all_numbered};
ghost use Rattle.plan_read.specs.Results.{Answers, SameAnswer, answer_of};
ghost use Rattle.plan_read.specs.declared.fault.PlanFault.{PlanFault};

use crate::PlanFault;
use crate::checks::check;
use crate::draft::{Draft, read_lines};
use crate::lines::operator_lines;
use crate::naming::names_in;
use mix_catalog::Catalog;
use mix_tree::Label;
use plan_core::{Op, Plan};
use std::alloc::{AllocError, Global};

// The operators of lines.
fn ops_of(alloc: Global, drafts: Vec<Draft>) -> Result<Vec<Op>, AllocError>
    ensures { IfOk result (λ ops. map op_of ops.items ≡ ops_of (all_numbered drafts.items)) }
{
    let mut ops = Vec::with_capacity(alloc, drafts.len())?;
    'drafts: for draft in drafts {
        ops.push(draft.op)?;
    }
    Ok(ops)
}

// The names of the sources of a catalog.
fn source_names(alloc: Global, catalog: &Catalog) -> Result<Vec<Label>, AllocError>
    ensures { IfOk result (λ names. names.items ≡ map (λ (s : SourceSpec). s.name) catalog.now) }
{
    let mut names = Vec::new(alloc);
    for s in 0..catalog.len() {
        names.push(catalog.spec(s).name.copy(alloc)?)?;
    }
    Ok(names)
}

// The plan that a text spells, or the first cause why it spells none.
fn plan_of(alloc: Global, text: &[u8], catalog: &Catalog) -> Result<Plan, PlanFault>
    ensures { Answers text.now catalog.now (answer_of result) }
{
    if let Err(error) = str::from_utf8(text) {
        return Err(PlanFault::NotUtf8(error.valid_up_to()));
    }
    let lines = operator_lines(alloc, text)?;
    let names = names_in(alloc, &lines)?;
    let drafts = read_lines(alloc, &names, catalog, &lines)?;
    check(alloc, &drafts, catalog.len())?;
    Ok(Plan {
        ops: ops_of(alloc, drafts)?,
        names: names.labels(alloc)?,
        sources: source_names(alloc, catalog)?,
    })
}

/// The plan that a text spells over the sources of a catalog (docs/FORMATS.md, "Plans").
///
/// # Errors
///
/// Of the causes that a text has, the first of these is answered, each with the first line that has it: `NotUtf8`, `Line`, `TooMany`, `Number`,
/// `UnknownSource`, `Positions`, `Variable`, `Invalid`, `End`, `Unused`, `NotSingle`. `OutOfMemory` can come with any text.
pub fn read_plan(alloc: Global, text: &[u8], catalog: &Catalog) -> Result<Plan, PlanFault>
    // The answer is that of the text: its plan, which is valid, or why it is no plan's.
    ensures answers { Answers text.now catalog.now (answer_of result) }
    // The text has no other answer, want of memory apart.
    ensures only { (other : Result PlanValue PlanFault) → Answers text.now catalog.now other → SameAnswer (answer_of result) other }
{
    plan_of(alloc, text, catalog)
}
