// What is asked of a run, and the answers to its steps.
ghost use Rattle.std.specs.Prelude.{◌≡◌, ◌≤◌, ◌+◌, ◌-◌, ◌^◌, length};
ghost use Rattle.mix_io.specs.Views.{FilesView, SinkView};
ghost use Rattle.plan_core.specs.PlanMade.{plan_value};
ghost use Rattle.mix_reach.specs.Reach.{reaching_in};
ghost use Rattle.mix_reach.specs.Stores.{KeepsStores, StoresView, stores_in, stores_of};
ghost use Rattle.table_keep.specs.Views.{TablesView};
ghost use Rattle.mix_place.specs.Placed.{ArePlaced};
ghost use Rattle.view_stack.specs.Steps.{IsPlanOver as IsPlanOverBase};
ghost use Rattle.std.specs.List.{AllByRecursion};
ghost use Rattle.mix_run.specs.Finishing.{IsAnswerable};
ghost use Rattle.mix_run.specs.Running.{IsEnd, IsEndOver, IsLinesEnd, LinesOver, by_fills, placed};
ghost use Rattle.mix_place.specs.Plans.{IsPlanOver};

use crate::law::plans_are_finished;
use crate::outcome::{Outcome, end_of};
use far_keep::Fars;
use lazy_value::Mediator;
use lxp_core::Sources;
use mix_catalog::Catalog;
use mix_io::Sink;
use mix_lines::run_lines;
use mix_mount::Mounted;
use mix_place::{Placement, Stop, source_names};
use mix_reach::{Reached, Stores};
use mix_script::Step;
use plan_core::Plan;
use std::alloc::Global;
use table_keep::Tables;
use view_stack::{Stack, views_are_documents};

/// What is asked of a run: what its catalog and its script say, and the plan of its view.
#[derive(Drop)]
pub struct Asked {
    pub catalog: Catalog,
    pub plan: Plan,
    pub steps: Vec<Step>,
}

/// What a run needs: what is asked, and the sources, placed for the plan.
#[derive(Drop)]
pub struct Ready {
    pub asked: Asked,
    pub placement: Placement,
}

/// What the steps of a run asked of its sources: how many fills, and by how much the count of pages of tables rose.
#[derive(Clone, Copy, Debug, PartialEq, Eq)]
pub struct Spent {
    pub fills: u64,
    pub pages: u64,
}

/// How the lines of a run ended, what its steps asked, and the stores.
#[derive(Drop)]
pub struct Answered<T, R> {
    pub end: Result<Outcome, Stop>,
    pub spent: Spent,
    pub stores: Stores<T, R>,
}

// Answers the steps of a run on the document of its plan over the sources of its catalog, each line by one write.
fn walk<S: Sources, K: Sink>(
    alloc: Global,
    asked: Asked,
    sources: &mut S,
    out: &mut K,
) -> Result<Outcome, Stop>
    requires over { IsPlanOver asked.catalog (plan_value asked.plan) }
    requires answerable { IsAnswerable (plan_value asked.plan).ops asked.steps.items }
    requires number { (S.view sources.old).count ≡ length asked.catalog }
    ensures came { S.came_from sources.old sources.new }
    ensures end { IsEnd (sources.new ≡ sources.old) (S.view sources.old) (S.view sources.new) asked (K.view out.old) (K.view out.new) result }
    ensures count { (K.view out.old).faults ≤ (K.view out.new).faults }
{
    let Asked {
        catalog,
        plan,
        steps,
    } = asked;
    let names = source_names(alloc, &catalog)?;
    let mediator = Mediator::open(alloc, plan, sources)?;
    end_of(run_lines(alloc, sources, mediator, &steps, &names, out))
}

/// Answers the steps of a run on the document of its plan over sources and views over these, each line by one write. Where the sources stand in for others that
/// are reached, the lines are those of a run over these. The sources are handed back.
pub fn answer_over<S: Sources, K: Sink>(
    alloc: Global,
    asked: Asked,
    views: Vec<Option<Plan>>,
    sources: S,
    out: &mut K,
) -> (Result<Outcome, Stop>, S)
    requires over { IsPlanOver asked.catalog (plan_value asked.plan) }
    requires answerable { IsAnswerable (plan_value asked.plan).ops asked.steps.items }
    requires views { AllByRecursion (IsPlanOverBase (S.view sources).count) views.items }
    requires number { (S.view sources).count + length views.items ≡ length asked.catalog }
    requires few { length asked.catalog ≤ 32 }
    ensures came { S.came_from sources result.1 }
    ensures end { IsEndOver (S.view sources) (S.view result.1) views.items asked (K.view out.old) (K.view out.new) result.0 }
    ensures count { (K.view out.old).faults ≤ (K.view out.new).faults }
{
    plans_are_finished();
    views_are_documents();
    match Stack::open(alloc, sources, views) {
        Ok(mut stack) => {
            let end = walk(alloc, asked, &mut stack, out);
            (end, stack.into_base())
        }
        Err(refused) => (Err(Stop::OutOfMemory), refused.base),
    }
}

/// What a run over sources came to whose lines ended so, where this many pages of tables were asked before it. The stores are handed back.
pub fn hand_back<T: Tables, R: Fars>(
    end: Result<Outcome, Stop>,
    sources: Reached<T, R>,
    before: u64,
) -> Answered<T, R>
    requires earlier { before ≤ (reaching_in T.view R.view sources).mounted.tables.pages }
    ensures end { result.end ≡ end }
    ensures stores { stores_in T.view R.view result.stores ≡ stores_of (reaching_in T.view R.view sources) }
    ensures fills { result.spent.fills ≡ sources.fills }
    ensures pages { result.spent.pages ≡ (T.view result.stores.tables).pages - before }
    ensures most { (reaching_in T.view R.view sources).mounted.tables.pages ≤ 2 ^ 64 - 1 }
    ensures most_fills { sources.fills ≤ 2 ^ 64 - 1 }
{
    let fills = sources.fills();
    prove!(fills <= u64::MAX);
    let (mounted, fars) = sources.into_parts();
    let tables = mounted.into_tables();
    let now = tables.pages();
    prove!(now <= u64::MAX);
    let pages = now - before;
    let spent = Spent { fills, pages };
    let stores = Stores { tables, fars };
    Answered { end, spent, stores }
}

/// Answers the steps of a run on the document of its plan, over mounted documents and stores, which are handed back, each line by one write.
pub fn answer<T: Tables, R: Fars, K: Sink>(
    alloc: Global,
    ready: Ready,
    stores: Stores<T, R>,
    out: &mut K,
) -> Answered<T, R>
    requires over { IsPlanOver ready.asked.catalog (plan_value ready.asked.plan) }
    requires answerable { IsAnswerable (plan_value ready.asked.plan).ops ready.asked.steps.items }
    requires placed { let asked = ready.asked in
        (files : FilesView) × ArePlaced files (plan_value asked.plan).ops asked.catalog (placed ready) }
    requires few { length ready.asked.catalog ≤ 32 }
    ensures keeps { KeepsStores (stores_in T.view R.view stores) (stores_in T.view R.view result.stores) }
    ensures end { let old = stores_in T.view R.view stores in let new = stores_in T.view R.view result.stores in
        IsLinesEnd (LinesOver (by_fills result.spent.fills) old new (placed ready) ready.asked) (K.view out.old) (K.view out.new) result.end }
    ensures pages { result.spent.pages ≡ (T.view result.stores.tables).pages - (T.view stores.tables).pages }
    ensures count { (K.view out.old).faults ≤ (K.view out.new).faults }
{
    let before = stores.tables.pages();
    let Ready { asked, placement } = ready;
    let Placement { docs, sites, views } = placement;
    let Stores { tables, fars } = stores;
    let sources = Reached::new(Mounted::new(docs, tables), sites, fars);
    let (end, sources) = answer_over(alloc, asked, views, sources, out);
    hand_back(end, sources, before)
}
