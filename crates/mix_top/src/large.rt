// The command `load`: many people made in memory, and what a visit of their names comes to.
ghost use Rattle.std.specs.Prelude.{◌≡◌, ◌≤◌, OnOk, IfOk, IfErr, string_bytes};
ghost use Rattle.mix_io.specs.Views.{SinkView};
ghost use Rattle.mix_top.specs.Load.{load_lines, visit_lines, Loads};
ghost use Rattle.mix_run.specs.Stops.{IsDone, IsStop};

use browse_class::Class;
use mix_io::Sink;
use mix_load::{Visit, names_class, visit_people};
use mix_place::Stop;
use mix_run::write_lines;
use std::alloc::{AllocError, Global};
use view_class::class_line;

// The lines that tell the number of people and the numbers of a visit of them.
fn visit_numbers(alloc: Global, rows: u32, visit: &Visit) -> Result<String, AllocError>
    ensures { let v = visit.now in
        IfOk result (λ text. string_bytes text ≡ visit_lines rows v.commands v.nodes v.bytes) }
{
    let Visit {
        commands,
        nodes,
        bytes,
    } = *visit;
    format!(in alloc; "rows {rows}\ncommands {commands}\nnodes {nodes}\nbytes {bytes}\n")
}

// The lines that tell the number of people and the numbers of a visit of them, and the line of the class of their view.
fn visit_text(alloc: Global, rows: u32, visit: &Visit, class: Class) -> Result<String, AllocError>
    ensures { let v = visit.now in
        IfOk result (λ text. string_bytes text ≡ load_lines rows v.commands v.nodes v.bytes class) }
{
    let class = class_line(alloc, class)?;
    let mut text = visit_numbers(alloc, rows, visit)?;
    text.push_str(class.as_str())?;
    Ok(text)
}

/// Visits the names of so many people, who are made in memory, by a session over their document, and writes five lines: how many people
/// there are, how many commands were taken, how many nodes and bytes were printed, and the class of the view. No file is read (docs/FORMATS.md, "Commands").
pub fn load<K: Sink>(alloc: Global, count: u32, out: &mut K) -> Result<(), Stop>
    ensures done { OnOk result (IsDone (Loads count) (K.view out.old) (K.view out.new)) }
    ensures stop { IfErr result (IsStop (Loads count) (K.view out.old) (K.view out.new)) }
    ensures count { (K.view out.old).faults ≤ (K.view out.new).faults }
{
    let class = names_class(alloc)?;
    let visit = visit_people(alloc, count)?;
    let text = visit_text(alloc, count, &visit, class)?;
    write_lines(alloc, text.as_bytes(), out)
}
