// The commands `run`, `count`, `exec` and `loop`: the steps of a script on the document of a view or of a written plan, and what that cost.
ghost use Rattle.std.specs.Prelude.{◌≡◌, ◌≤◌, List, ℕ, length, OnOk, IfOk, IfErr};
ghost use Rattle.mix_io.specs.Views.{FilesView, SinkView, KeepsFiles, ReadsOnly};
ghost use Rattle.plan_core.specs.PlanMade.{plan_value};
ghost use Rattle.mix_run.specs.FilesRead.{RunMayRead};
ghost use Rattle.mix_place.specs.Reading.{ReadsAmong};
ghost use Rattle.mix_reach.specs.Stores.{KeepsStores, StoresView, stores_in};
ghost use Rattle.mix_place.specs.Placed.{ArePlaced};
ghost use Rattle.mix_script.specs.declared.step.Forms.TheVariants.{WithIds};
ghost use Rattle.plan_evidence.specs.Held.{UsesHeld};
ghost use Rattle.mix_run.specs.Finishing.{IsAnswerable};
ghost use Rattle.mix_run.specs.Running.{IsPlanGiven, IsReady, IsReadyStop, LinesOver, RunCourse, given_by, placed, run_lines};
ghost use Rattle.mix_place.specs.Plans.{IsPlanOver};
ghost use Rattle.mix_run.specs.Stops.{IsDoneAlong, IsStopAlong};
ghost use Rattle.mix_place.specs.Stops.{IsLoadStop};

use crate::asked::{Asked, Ready, answer};
use crate::counting::count_ready;
use crate::looping::answer_looped;
use crate::outcome::Outcome;
use far_keep::Fars;
use lazy_walk::valid_plans_have_documents;
use mix_catalog::Catalog;
use mix_io::{Files, Sink};
use mix_place::{Stop, load_catalog, load_plan, load_script, load_view, place_sources};
use mix_reach::Stores;
use mix_script::Forms;
use plan_core::{Plan, visited_are_matches};
use std::alloc::Global;
use table_keep::Tables;

/// What is written of a run.
#[derive(Clone, Copy, Debug)]
pub enum RunForm {
    /// The answers to its steps.
    Answers,
    /// The answers to its steps, and what they cost.
    Counts,
    /// The answers to its steps on the document of a plan text in place of a view, the plan as it stands.
    Executed,
    /// The answers to its steps, the sources read over a link in memory.
    Looped,
}

/// A run: the file of its view or of its plan, those of its catalog and its script, and the form.
#[derive(Clone, Copy, Debug)]
pub struct Running<'a> {
    pub file: &'a str,
    pub catalog: &'a str,
    pub script: &'a str,
    pub form: RunForm,
}

// The forms that the lines of a run's script may have: on the document of a view identifiers may be written down and followed.
fn forms_of(form: RunForm) -> Forms
    ensures { result ≡ (given_by form).forms }
{
    match form {
        RunForm::Answers | RunForm::Counts | RunForm::Looped => Forms::WithIds,
        RunForm::Executed => Forms::Plain,
    }
}

/// The plan of a run in a form: of the rule that the file spells, its selections moved, or as the file spells it. An error names the file and why it is
/// refused; only want of memory has no cause.
pub fn load_given<F: Files>(
    alloc: Global,
    files: &mut F,
    form: RunForm,
    path: &str,
    catalog: &Catalog,
) -> Result<Plan, Stop>
    ensures keeps { KeepsFiles (F.view files.old) (F.view files.new) }
    ensures others { ReadsOnly path.now (F.view files.old) (F.view files.new) }
    ensures steady { OnOk result ((p : List ℕ) → (F.view files.new).faults p ≡ (F.view files.old).faults p) }
    ensures ok { IfOk result (λ plan. IsPlanGiven form (F.view files.old) path.now catalog.now (plan_value plan)) }
    ensures over { IfOk result (λ plan. IsPlanOver catalog.now (plan_value plan)) }
    ensures uses { (given_by form).forms ≡ WithIds → IfOk result (λ plan. UsesHeld (plan_value plan).ops) }
    ensures err { let given = given_by form in
        IfErr result (IsLoadStop (given.IsNone catalog.now) (F.view files.old) (F.view files.new) path.now) }
{
    match form {
        RunForm::Answers | RunForm::Counts | RunForm::Looped => {
            load_view(alloc, files, path, catalog)
        }
        RunForm::Executed => load_plan(alloc, files, path, catalog),
    }
}

/// Reads the files of a run, each accepted before the next is read: the catalog, the view or the plan text, the script, and then those of the sources
/// that the plan reads, in the order of the catalog.
pub fn make_ready<F: Files>(
    alloc: Global,
    running: &Running<'_>,
    files: &mut F,
) -> Result<Ready, Stop>
    ensures keeps { KeepsFiles (F.view files.old) (F.view files.new) }
    ensures reads { let old = F.view files.old in
        let r = running.now in
        ReadsAmong (RunMayRead (given_by r.form) old r.file.now r.catalog.now r.script.now) old (F.view files.new) }
    ensures ok { let r = running.now in IfOk result (IsReady r.form (F.view files.old) r.file.now r.catalog.now r.script.now) }
    ensures err { let r = running.now in
        IfErr result (IsReadyStop (given_by r.form) (F.view files.old) (F.view files.new) r.file.now r.catalog.now r.script.now) }
{
    let catalog = load_catalog(alloc, files, running.catalog)?;
    let plan = load_given(alloc, files, running.form, running.file, &catalog)?;
    let steps = load_script(alloc, files, running.script, forms_of(running.form))?;
    let placement = place_sources(alloc, files, &catalog, &plan)?;
    let asked = Asked {
        catalog,
        plan,
        steps,
    };
    Ok(Ready { asked, placement })
}

// Answers the steps of a run whose files were all accepted, in a form, over stores, which are handed back.
fn run_ready<T: Tables, R: Fars, K: Sink>(
    alloc: Global,
    ready: Ready,
    form: RunForm,
    stores: Stores<T, R>,
    out: &mut K,
) -> (Result<Outcome, Stop>, Stores<T, R>)
    requires over { IsPlanOver ready.asked.catalog (plan_value ready.asked.plan) }
    requires answerable { IsAnswerable (plan_value ready.asked.plan).ops ready.asked.steps.items }
    requires placed { let asked = ready.asked in
        (files : FilesView) × ArePlaced files (plan_value asked.plan).ops asked.catalog (placed ready) }
    requires few { length ready.asked.catalog ≤ 32 }
    ensures keeps { KeepsStores (stores_in T.view R.view stores) (stores_in T.view R.view result.1) }
    ensures done { let old = stores_in T.view R.view stores in let new = stores_in T.view R.view result.1 in
        IfOk result.0 (IsDoneAlong (LinesOver (run_lines form) old new (placed ready) ready.asked) (K.view out.old) (K.view out.new)) }
    ensures stop { let old = stores_in T.view R.view stores in let new = stores_in T.view R.view result.1 in
        IfErr result.0 (IsStopAlong (new ≡ old) (LinesOver (run_lines form) old new (placed ready) ready.asked) (K.view out.old) (K.view out.new)) }
    ensures count { (K.view out.old).faults ≤ (K.view out.new).faults }
{
    match form {
        RunForm::Answers | RunForm::Executed => {
            let answered = answer(alloc, ready, stores, out);
            (answered.end, answered.stores)
        }
        RunForm::Looped => {
            let answered = answer_looped(alloc, ready, stores, out);
            (answered.end, answered.stores)
        }
        RunForm::Counts => count_ready(alloc, ready, stores, out),
    }
}

/// Answers the steps of a script on the finished document of the view that VIEW spells over the sources of CATALOG, a line each, and in the
/// form that counts writes four more lines: how many commands there were, how many fills they asked of the sources, by how much the
/// count of pages rose, and the class of the view. In the form that executes, the document is that of the plan that PLAN spells, as it stands; in the
/// form that loops, all that is read of the sources goes over a link in memory. The files are read in the order CATALOG, VIEW or PLAN, SCRIPT, and
/// then those of the bracket and CSV sources that the plan reads, each accepted before the next is read, and all before a line is written. Tables and sources of
/// other machines are first asked by a step, so a run of which a file is refused asks none of them, and are handed back (docs/FORMATS.md, "Commands").
pub fn run<F: Files, T: Tables, R: Fars, K: Sink>(
    alloc: Global,
    running: &Running<'_>,
    files: &mut F,
    stores: Stores<T, R>,
    out: &mut K,
) -> (Result<Outcome, Stop>, Stores<T, R>)
    ensures keeps { KeepsFiles (F.view files.old) (F.view files.new) }
    ensures keeps_stores { KeepsStores (stores_in T.view R.view stores) (stores_in T.view R.view result.1) }
    ensures reads { let old = F.view files.old in
        let r = running.now in
        ReadsAmong (RunMayRead (given_by r.form) old r.file.now r.catalog.now r.script.now) old (F.view files.new) }
    ensures done { let old = stores_in T.view R.view stores in let new = stores_in T.view R.view result.1 in
        IfOk result.0 (IsDoneAlong (RunCourse (F.view files.old) (F.view files.new) old new running.now) (K.view out.old) (K.view out.new)) }
    ensures stop { let old = stores_in T.view R.view stores in let new = stores_in T.view R.view result.1 in
        IfErr result.0 (IsStopAlong (new ≡ old) (RunCourse (F.view files.old) (F.view files.new) old new running.now) (K.view out.old) (K.view out.new)) }
    ensures count { (K.view out.old).faults ≤ (K.view out.new).faults }
{
    visited_are_matches();
    valid_plans_have_documents();
    match make_ready(alloc, running, files) {
        Ok(ready) => run_ready(alloc, ready, running.form, stores, out),
        Err(stop) => (Err(stop), stores),
    }
}
