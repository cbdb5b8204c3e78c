// The answers to the steps of a run whose sources are read over a link in memory.
ghost use Rattle.std.specs.Prelude.{◌≡◌, ◌≤◌, ◌-◌, length};
ghost use Rattle.mix_io.specs.Views.{FilesView, SinkView};
ghost use Rattle.plan_core.specs.PlanMade.{plan_value};
ghost use Rattle.mix_reach.specs.Stores.{KeepsStores, StoresView, stores_in};
ghost use Rattle.table_keep.specs.Views.{TablesView};
ghost use Rattle.mix_place.specs.Placed.{ArePlaced};
ghost use Rattle.mix_run.specs.Finishing.{IsAnswerable};
ghost use Rattle.mix_run.specs.Running.{IsLinesEnd, LinesOver, by_fills, placed};
ghost use Rattle.mix_place.specs.Plans.{IsPlanOver};

use crate::asked::{Answered, Ready, answer_over, hand_back};
use crate::law::plans_are_finished;
use far_keep::Fars;
use mix_io::Sink;
use mix_loop::{close_loop, open_loop};
use mix_mount::Mounted;
use mix_place::{Placement, Stop};
use mix_reach::{Reached, Stores};
use std::alloc::Global;
use table_keep::Tables;

/// Answers the steps of a run as `answer` does, but that all that is read of the sources goes over a link in memory, as the bytes of
/// requests and replies (docs/FORMATS.md, "Commands").
pub fn answer_looped<T: Tables, R: Fars, K: Sink>(
    alloc: Global,
    ready: Ready,
    stores: Stores<T, R>,
    out: &mut K,
) -> Answered<T, R>
    requires over { IsPlanOver ready.asked.catalog (plan_value ready.asked.plan) }
    requires answerable { IsAnswerable (plan_value ready.asked.plan).ops ready.asked.steps.items }
    requires placed { let asked = ready.asked in
        (files : FilesView) × ArePlaced files (plan_value asked.plan).ops asked.catalog (placed ready) }
    requires few { length ready.asked.catalog ≤ 32 }
    ensures keeps { KeepsStores (stores_in T.view R.view stores) (stores_in T.view R.view result.stores) }
    ensures end { let old = stores_in T.view R.view stores in let new = stores_in T.view R.view result.stores in
        IsLinesEnd (LinesOver (by_fills result.spent.fills) old new (placed ready) ready.asked) (K.view out.old) (K.view out.new) result.end }
    ensures pages { result.spent.pages ≡ (T.view result.stores.tables).pages - (T.view stores.tables).pages }
    ensures count { (K.view out.old).faults ≤ (K.view out.new).faults }
{
    plans_are_finished();
    let before = stores.tables.pages();
    let Ready { asked, placement } = ready;
    let Placement { docs, sites, views } = placement;
    let Stores { tables, fars } = stores;
    let sources = Reached::new(Mounted::new(docs, tables), sites, fars);
    match open_loop(alloc, sources) {
        Ok(remote) => {
            let (end, remote) = answer_over(alloc, asked, views, remote, out);
            hand_back(end, close_loop(remote), before)
        }
        Err(kept) => hand_back(Err(Stop::OutOfMemory), kept, before),
    }
}
