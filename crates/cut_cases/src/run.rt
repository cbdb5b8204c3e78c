// A run of a script over documents in memory that come in pieces: on the document of a view, or on a document itself.
ghost use Rattle.std.specs.Prelude.{length, IfOk};
ghost use Rattle.lxp_memory.specs.Memory.{memory_view};
ghost use Rattle.xmas_rule.specs.RuleMade.{rule_of};
ghost use Rattle.xmas_rule.specs.Rules.{IsAccepted};
ghost use Rattle.plan_core.specs.PlanMade.{plan_value};
ghost use Rattle.plan_core.specs.Valid.{IsValid};
ghost use Rattle.plan_evidence.specs.Held.{UsesHeld};
ghost use Rattle.lazy_plan.specs.Bench.{ops_of};
ghost use Rattle.lazy_value.specs.Named.{IsMediatorOf, state_of};

use crate::setting::{RuleRead, rule_of_case, sources_of, steps_of, walk_steps_of};
use crate::watched::Watched;
use case_text::{Fault, Part, numbers, part_of};
use lazy_value::Mediator;
use lxp_core::Sources;
use mix_io::MemSink;
use mix_lines::{LinesFault, run_lines, walk_lines};
use mix_tree::Label;
use plan_core::Plan;
use plan_make::make_plan;
use plan_rewrite::plan_view;
use plan_uses::plans_of_views_use_what_is_held;
use std::alloc::{AllocError, Global};

/// What is run of a case: its script, and how it is run.
#[derive(Clone, Copy)]
pub struct Turn<'a> {
    /// The script that is answered.
    pub script: &'a [u8],
    /// The fill of this number fails too.
    pub failing: Option<u64>,
    /// Whether the plan of the view is taken as it is made, where no selection is moved.
    pub is_unmoved: bool,
}

/// What a run left: the bytes written, whether a fault line is among them, how many fills were asked, and the name of the source that
/// failed last, of no bytes where none did.
#[derive(Drop)]
pub struct Outcome {
    pub written: Vec<u8>,
    pub answer: Result<bool, LinesFault>,
    pub fills: u64,
    pub failed: Vec<u8>,
}

// The documents of a case, with a note of which failed last.
fn watched(alloc: Global, parts: &[Part<'_>], turn: &Turn<'_>) -> Result<Watched, Fault> {
    Ok(Watched {
        sources: sources_of(alloc, parts, turn.failing)?,
        failed: None,
    })
}

// The sink of a case, which fails at the writes that its part `writes` names.
fn sink_of(alloc: Global, parts: &[Part<'_>]) -> Result<MemSink, Fault> {
    Ok(MemSink::new(alloc, numbers(alloc, parts, "writes")?))
}

// The name of the source that failed last.
fn failed_name(alloc: Global, s: &Watched, names: &[Label]) -> Result<Vec<u8>, AllocError> {
    match s.failed {
        Some(source) => match names.get(source as usize) {
            Some(name) => name.bytes().to_vec(alloc),
            None => Ok(Vec::new(alloc)),
        },
        None => Ok(Vec::new(alloc)),
    }
}

// What a run left, from its sources, its sink and its answer.
fn left(
    alloc: Global,
    s: &Watched,
    names: &[Label],
    out: &MemSink,
    answer: Result<bool, LinesFault>,
) -> Result<Outcome, AllocError> {
    let failed = failed_name(alloc, s, names)?;
    Ok(Outcome {
        written: out.bytes().to_vec(alloc)?,
        answer,
        fills: s.sources.fills(),
        failed,
    })
}

// The plan of a rule.
fn plan_of(alloc: Global, read: &RuleRead, is_unmoved: bool) -> Result<Plan, AllocError>
    requires { IsAccepted (length read.now.names.items) (rule_of read.now.rule) }
    ensures valid { IfOk result (λ plan. IsValid (plan_value plan)) }
    ensures uses { IfOk result (λ plan. UsesHeld (plan_value plan).ops) }
{
    plans_of_views_use_what_is_held();
    if is_unmoved {
        make_plan(alloc, &read.rule, &read.names)
    } else {
        plan_view(alloc, &read.rule, &read.names)
    }
}

// The mediator of a rule's plan over the documents of a case. `Fault::Form`: there are not as many documents as sources.
fn opened(alloc: Global, s: &Watched, read: &RuleRead, is_unmoved: bool) -> Result<Mediator, Fault>
    requires { IsAccepted (length read.now.names.items) (rule_of read.now.rule) }
    ensures mediator { IfOk result (IsMediatorOf (memory_view s.now.sources)) }
    ensures uses { IfOk result (λ m. UsesHeld (ops_of (state_of (memory_view s.now.sources) m))) }
{
    let plan = plan_of(alloc, read, is_unmoved)?;
    if plan.sources.len() != s.count() as usize {
        return Err(Fault::Form);
    }
    let mediator = Mediator::open(alloc, plan, s)?;
    Ok(mediator)
}

// Answers a script on the document of the case's view.
fn run_view(alloc: Global, parts: &[Part<'_>], turn: &Turn<'_>) -> Result<Outcome, Fault> {
    let steps = steps_of(alloc, turn.script)?;
    let read = rule_of_case(alloc, parts)?;
    let mut s = watched(alloc, parts, turn)?;
    if read.names.len() != s.count() as usize {
        return Err(Fault::Form);
    }
    let m = opened(alloc, &s, &read, turn.is_unmoved)?;
    let mut out = sink_of(alloc, parts)?;
    let answer = run_lines(alloc, &mut s, m, &steps, &read.names, &mut out);
    Ok(left(alloc, &s, &read.names, &out, answer)?)
}

// Answers a script on the only document of a case, which is named `doc`.
fn run_walk(alloc: Global, parts: &[Part<'_>], turn: &Turn<'_>) -> Result<Outcome, Fault> {
    let steps = walk_steps_of(alloc, turn.script)?;
    let names = [Label::of_text(alloc, b"doc")?];
    let mut s = watched(alloc, parts, turn)?;
    if s.count() as usize != names.len() {
        return Err(Fault::Form);
    }
    let mut out = sink_of(alloc, parts)?;
    let answer = walk_lines(alloc, &mut s, 0, &steps, &names, &mut out);
    Ok(left(alloc, &s, &names, &out, answer)?)
}

/// Whether a case is of a view.
pub fn has_view(parts: &[Part<'_>]) -> bool {
    part_of(parts, "view").is_some()
}

/// Runs the script of a case, on the document of its view where it has one, and else on its only document.
pub fn run(alloc: Global, parts: &[Part<'_>], turn: &Turn<'_>) -> Result<Outcome, Fault> {
    if has_view(parts) {
        run_view(alloc, parts, turn)
    } else {
        run_walk(alloc, parts, turn)
    }
}
