// What the answers to the steps of a run cost.
ghost use Rattle.std.specs.Prelude.{◌≡◌, ◌≤◌, List, ℕ, length, IfOk, IfErr, string_bytes};
ghost use Rattle.mix_io.specs.Views.{FilesView, SinkView};
ghost use Rattle.mix_reach.specs.Stores.{KeepsStores, StoresView, stores_in};
ghost use Rattle.plan_core.specs.PlanMade.{plan_value};
ghost use Rattle.mix_run.specs.Counting.{IsCounted, IsCountStop, lines_of_counts};
ghost use Rattle.mix_run.specs.Counts.{number_lines};
ghost use Rattle.mix_run.specs.Runs.{lines_of_count};
ghost use Rattle.mix_place.specs.Placed.{ArePlaced};
ghost use Rattle.mix_place.specs.Plans.{IsPlanOver};
ghost use Rattle.mix_run.specs.Finishing.{IsAnswerable};
ghost use Rattle.mix_run.specs.Running.{LinesOver, placed};
ghost use Rattle.mix_run.specs.Stops.{IsDoneAlong, IsStopAlong};

use crate::asked::{Ready, Spent, answer};
use crate::outcome::Outcome;
use crate::writing::write_lines;
use browse_class::Class;
use far_keep::Fars;
use mix_io::Sink;
use mix_place::Stop;
use mix_reach::Stores;
use std::alloc::{AllocError, Global};
use table_keep::Tables;
use view_class::{class_line, class_over};

/// What `count` writes after the answers: how many commands there were, what they asked, and the class of the plan.
#[derive(Clone, Copy)]
pub struct Counts {
    pub commands: u64,
    pub spent: Spent,
    pub class: Class,
}

// The lines that tell how many commands, fills and pages there were.
fn numbers_text(alloc: Global, commands: u64, spent: Spent) -> Result<String, AllocError>
    ensures { IfOk result (λ text. string_bytes text ≡ number_lines commands spent.fills spent.pages) }
{
    let Spent { fills, pages } = spent;
    format!(in alloc; "commands {commands}\nfills {fills}\npages {pages}\n")
}

// The lines that tell the counts of a run, and the class of its plan.
fn counts_text(alloc: Global, counts: &Counts) -> Result<String, AllocError>
    ensures { IfOk result (λ text. string_bytes text ≡ lines_of_counts counts.now) }
{
    let class = class_line(alloc, counts.class)?;
    let mut text = numbers_text(alloc, counts.commands, counts.spent)?;
    text.push_str(class.as_str())?;
    Ok(text)
}

// Writes the lines of counts after those of a run, where these came to their end.
fn write_counts<K: Sink>(
    alloc: Global,
    end: Result<Outcome, Stop>,
    counts: &Counts,
    out: &mut K,
) -> Result<Outcome, Stop>
    ensures ok { IfOk result (IsCounted end (K.view out.old) (K.view out.new) (lines_of_counts counts.now)) }
    ensures err { IfErr result (IsCountStop end (K.view out.old) (K.view out.new) (lines_of_counts counts.now)) }
    ensures count { (K.view out.old).faults ≤ (K.view out.new).faults }
{
    let outcome = end?;
    let text = counts_text(alloc, counts)?;
    write_lines(alloc, text.as_bytes(), out)?;
    Ok(outcome)
}

/// Answers the steps of a run whose files were all accepted, and writes what that cost. The stores are handed back.
pub fn count_ready<T: Tables, R: Fars, K: Sink>(
    alloc: Global,
    ready: Ready,
    stores: Stores<T, R>,
    out: &mut K,
) -> (Result<Outcome, Stop>, Stores<T, R>)
    requires over { IsPlanOver ready.asked.catalog (plan_value ready.asked.plan) }
    requires answerable { IsAnswerable (plan_value ready.asked.plan).ops ready.asked.steps.items }
    requires placed { let asked = ready.asked in
        (files : FilesView) × ArePlaced files (plan_value asked.plan).ops asked.catalog (placed ready) }
    requires few { length ready.asked.catalog ≤ 32 }
    ensures keeps { KeepsStores (stores_in T.view R.view stores) (stores_in T.view R.view result.1) }
    ensures done { let old = stores_in T.view R.view stores in let new = stores_in T.view R.view result.1 in
        IfOk result.0 (IsDoneAlong (LinesOver lines_of_count old new (placed ready) ready.asked) (K.view out.old) (K.view out.new)) }
    ensures stop { let old = stores_in T.view R.view stores in let new = stores_in T.view R.view result.1 in
        IfErr result.0 (IsStopAlong (new ≡ old) (LinesOver lines_of_count old new (placed ready) ready.asked) (K.view out.old) (K.view out.new)) }
    ensures count { (K.view out.old).faults ≤ (K.view out.new).faults }
{
    let commands = ready.asked.steps.as_slice().len() as u64;
    let class = match class_over(alloc, &ready.asked.catalog, &ready.asked.plan) {
        Ok(class) => class,
        Err(_) => return (Err(Stop::OutOfMemory), stores),
    };
    let answered = answer(alloc, ready, stores, out);
    let counts = Counts {
        commands,
        spent: answered.spent,
        class,
    };
    (
        write_counts(alloc, answered.end, &counts, out),
        answered.stores,
    )
}
