// The command `talk`: the lines of a client that is alive, answered on the document of a view.
ghost use Rattle.std.specs.Prelude.{◌≡◌, ◌≤◌, ℕ, length, IfOk, IfErr};
ghost use Rattle.mix_io.specs.Input.{InputView};
ghost use Rattle.mix_io.specs.Views.{FilesView, SinkView, KeepsFiles};
ghost use Rattle.plan_core.specs.PlanMade.{plan_value};
ghost use Rattle.plan_evidence.specs.Held.{UsesHeld};
ghost use Rattle.xmas_read.specs.Results.{names_of_sources};
ghost use Rattle.mix_reach.specs.Reach.{CameFrom, reaching_in};
ghost use Rattle.mix_reach.specs.Stores.{KeepsStores, StoresView, stores_in};
ghost use Rattle.mix_place.specs.Reading.{ReadsAmong};
ghost use Rattle.mix_run.specs.Outside.{outside};
ghost use Rattle.mix_place.specs.Placed.{ArePlaced};
ghost use Rattle.mix_place.specs.Plans.{IsPlanOver};
ghost use Rattle.mix_run.specs.Running.{placed_of};
ghost use Rattle.mix_run.specs.TalkEnds.{TalkEnds, TalkedAlong, talk_status};
ghost use Rattle.mix_run.specs.Talking.{IsTalkEnd, IsReachedTalkEnd, IsTalkReady, IsTalkStop, TalkOver, placed_talk};
ghost use Rattle.mix_run.specs.Talks.{TalkMayRead};

use crate::law::plans_are_finished;
use crate::writing::refuse;
use far_keep::Fars;
use lazy_value::Mediator;
use lazy_walk::valid_plans_have_documents;
use lxp_core::Sources;
use mix_catalog::Catalog;
use mix_io::{Files, Input, Sink, Streams};
use mix_lines::{LinesFault, talk_lines};
use mix_mount::Mounted;
use mix_place::{Placement, Stop, load_catalog, load_view, place_sources, source_names};
use mix_reach::{Reached, Stores};
use plan_core::{Plan, visited_are_matches};
use std::alloc::Global;
use table_keep::Tables;
use view_stack::Stack;

/// A talk: the files of its view and its catalog.
#[derive(Clone, Copy, Debug)]
pub struct Talking<'a> {
    pub view: &'a str,
    pub catalog: &'a str,
}

/// What a talk is over: what its catalog says, and the plan of its view.
#[derive(Drop)]
pub struct Basis {
    pub catalog: Catalog,
    pub plan: Plan,
}

/// What a talk needs: what it is over, and the sources, placed for the plan.
#[derive(Drop)]
pub struct Ready {
    pub basis: Basis,
    pub placement: Placement,
}

// Reads the files of a talk, each accepted before the next is read: the catalog, the view, and then those of the sources that the view's
// plan reads, in the order of the catalog.
fn make_ready<F: Files>(alloc: Global, talking: &Talking<'_>, files: &mut F) -> Result<Ready, Stop>
    ensures keeps { KeepsFiles (F.view files.old) (F.view files.new) }
    ensures reads { let old = F.view files.old in
        ReadsAmong (TalkMayRead old talking.now.view.now talking.now.catalog.now) old (F.view files.new) }
    ensures ok { let t = talking.now in IfOk result (IsTalkReady (F.view files.old) t.view.now t.catalog.now) }
    ensures err { let t = talking.now in IfErr result (IsTalkStop (F.view files.old) (F.view files.new) t.view.now t.catalog.now) }
{
    let catalog = load_catalog(alloc, files, talking.catalog)?;
    let plan = load_view(alloc, files, talking.view, &catalog)?;
    let placement = place_sources(alloc, files, &catalog, &plan)?;
    Ok(Ready {
        basis: Basis { catalog, plan },
        placement,
    })
}

// Answers the lines of an input on the document of a plan over the sources of its catalog.
fn talk_over<S: Sources, I: Input, K: Sink>(
    alloc: Global,
    basis: Basis,
    sources: &mut S,
    streams: &mut Streams<I, K>,
) -> Result<bool, LinesFault>
    requires over { IsPlanOver basis.catalog (plan_value basis.plan) }
    requires uses { UsesHeld (plan_value basis.plan).ops }
    requires number { (S.view sources.old).count ≡ length basis.catalog }
    ensures came { S.came_from sources.old sources.new }
    ensures end { IsTalkEnd (sources.new ≡ sources.old) (S.view sources.old) (S.view sources.new) basis
        (I.view streams.old.input) (I.view streams.new.input) (K.view streams.old.out) (K.view streams.new.out) result }
    ensures input { (I.view streams.old.input).faults ≤ (I.view streams.new.input).faults }
    ensures count { (K.view streams.old.out).faults ≤ (K.view streams.new.out).faults }
{
    let Basis { catalog, plan } = basis;
    let names = source_names(alloc, &catalog)?;
    let mediator = Mediator::open(alloc, plan, sources)?;
    talk_lines(alloc, sources, mediator, &names, streams)
}

// Answers the lines of an input on the document of a plan over sources, of which no fill was asked yet, and views over them. The sources are handed back.
fn talk_stacked<T: Tables, R: Fars, I: Input, K: Sink>(
    alloc: Global,
    basis: Basis,
    views: Vec<Option<Plan>>,
    sources: Reached<T, R>,
    streams: &mut Streams<I, K>,
) -> (Result<bool, LinesFault>, Reached<T, R>)
    requires over { IsPlanOver basis.catalog (plan_value basis.plan) }
    requires uses { UsesHeld (plan_value basis.plan).ops }
    requires placed { (files : FilesView)
        × ArePlaced files (plan_value basis.plan).ops basis.catalog (placed_of (reaching_in T.view R.view sources) views.items) }
    requires few { length basis.catalog ≤ 32 }
    requires unasked { sources.fills ≡ 0 }
    ensures came { CameFrom (reaching_in T.view R.view sources) (reaching_in T.view R.view result.1) }
    ensures end { IsReachedTalkEnd (reaching_in T.view R.view sources) (reaching_in T.view R.view result.1) views.items basis
        (I.view streams.old.input) (I.view streams.new.input) (K.view streams.old.out) (K.view streams.new.out) result.0 }
    ensures input { (I.view streams.old.input).faults ≤ (I.view streams.new.input).faults }
    ensures count { (K.view streams.old.out).faults ≤ (K.view streams.new.out).faults }
{
    plans_are_finished();
    match Stack::open(alloc, sources, views) {
        Ok(mut stack) => {
            let end = talk_over(alloc, basis, &mut stack, streams);
            (end, stack.into_base())
        }
        Err(refused) => (Err(LinesFault::OutOfMemory), refused.base),
    }
}

// Answers the lines of an input over mounted documents and stores, which are handed back.
fn talk_ready<T: Tables, R: Fars, I: Input, K: Sink>(
    alloc: Global,
    ready: Ready,
    stores: Stores<T, R>,
    streams: &mut Streams<I, K>,
) -> (Result<bool, LinesFault>, Stores<T, R>)
    requires over { IsPlanOver ready.basis.catalog (plan_value ready.basis.plan) }
    requires uses { UsesHeld (plan_value ready.basis.plan).ops }
    requires placed { let basis = ready.basis in
        (files : FilesView) × ArePlaced files (plan_value basis.plan).ops basis.catalog (placed_talk ready) }
    requires few { length ready.basis.catalog ≤ 32 }
    ensures keeps { KeepsStores (stores_in T.view R.view stores) (stores_in T.view R.view result.1) }
    ensures end { let old = stores_in T.view R.view stores in let new = stores_in T.view R.view result.1 in
        (fills : ℕ) × TalkedAlong (names_of_sources ready.basis.catalog) (TalkOver fills old new (placed_talk ready) ready.basis)
        (I.view streams.old.input) (I.view streams.new.input) (K.view streams.old.out) (K.view streams.new.out) result.0 }
    ensures input { (I.view streams.old.input).faults ≤ (I.view streams.new.input).faults }
    ensures count { (K.view streams.old.out).faults ≤ (K.view streams.new.out).faults }
{
    let Ready { basis, placement } = ready;
    let Placement { docs, sites, views } = placement;
    let Stores { tables, fars } = stores;
    let sources = Reached::new(Mounted::new(docs, tables), sites, fars);
    let (end, sources) = talk_stacked(alloc, basis, views, sources, streams);
    let fills = sources.fills();
    let (mounted, fars) = sources.into_parts();
    let tables = mounted.into_tables();
    let pages = tables.pages();
    prove!(pages <= u64::MAX && fills <= u64::MAX);
    (end, Stores { tables, fars })
}

// The exit status of a talk, by how it ended.
fn status_of(end: Result<bool, LinesFault>) -> u8
    ensures { result ≡ talk_status end }
{
    match end {
        Ok(false) => 0,
        Ok(true) => 1,
        Err(LinesFault::SinkFailed) => 5,
        Err(LinesFault::OutOfMemory) => 6,
        Err(LinesFault::InputFailed) => 10,
    }
}

/// Answers the lines of an input, as they come, on the finished document of the view that VIEW spells over the sources of CATALOG, each by one
/// write before more is taken. The files are read as `run` reads them, all before a line is taken. Tables and sources of other
/// machines are first asked by a step, and are handed back (docs/FORMATS.md, "Talks").
pub fn talk<F: Files, T: Tables, R: Fars, I: Input, K: Sink>(
    alloc: Global,
    talking: &Talking<'_>,
    files: &mut F,
    stores: Stores<T, R>,
    streams: &mut Streams<I, K>,
) -> (u8, Stores<T, R>)
    ensures ends { let t = talking.now in let old = stores_in T.view R.view stores in let new = stores_in T.view R.view result.1 in
        TalkEnds (outside (F.view files.old) old) (outside (F.view files.new) new) t.view.now t.catalog.now
        (I.view streams.old.input) (I.view streams.new.input) (K.view streams.old.out) (K.view streams.new.out) result.0 }
    ensures reads { let old = F.view files.old in
        ReadsAmong (TalkMayRead old talking.now.view.now talking.now.catalog.now) old (F.view files.new) }
    ensures keeps { KeepsFiles (F.view files.old) (F.view files.new) }
    ensures keeps_stores { KeepsStores (stores_in T.view R.view stores) (stores_in T.view R.view result.1) }
    ensures input { (I.view streams.old.input).faults ≤ (I.view streams.new.input).faults }
    ensures count { (K.view streams.old.out).faults ≤ (K.view streams.new.out).faults }
{
    visited_are_matches();
    valid_plans_have_documents();
    match make_ready(alloc, talking, files) {
        Ok(ready) => {
            let (end, stores) = talk_ready(alloc, ready, stores, streams);
            (status_of(end), stores)
        }
        Err(Stop::Refused(refusal)) => (refuse(alloc, refusal, &mut streams.out), stores),
        Err(Stop::SinkFailed) => (5, stores),
        Err(Stop::OutOfMemory) => (6, stores),
    }
}
