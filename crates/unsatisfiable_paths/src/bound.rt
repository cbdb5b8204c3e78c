// The variable that an operator binds anew, and where its nodes can lie.
ghost use Rattle.std.specs.Prelude.{◌≡◌, ◌≤◌, IfOk};
ghost use Rattle.path_auto.specs.Automaton.{machine_of};
ghost use Rattle.path_expr.specs.Form.{positions_in};
ghost use Rattle.browse_visit.specs.Found.{sorts_found};
ghost use Rattle.browse_visit.specs.Shapes.{row_label, shape_at};
ghost use Rattle.plan_core.specs.PlanMade.{op_of};
ghost use Rattle.plan_core.specs.Shapes.{shape_of};
ghost use Rattle.plan_class.specs.Known.{IsShort};
ghost use Rattle.unsatisfiable_paths.specs.NodeDomains.{source_nodes, nodes_along, nodes_in, shape_bound};

use crate::domains::{NodeDomain, NodeDomains};
use browse_visit::{Shape, Sorts, first_sort, sample_labels, sorts_found};
use mix_tree::{Label, Var};
use path_auto::Auto;
use path_expr::Path;
use plan_core::Op;
use std::alloc::{AllocError, Global};

// Where the document node of a source lies.
fn source_nodes(shapes: &[Shape], source: u32) -> NodeDomain
    ensures { result ≡ source_nodes shapes.now source }
{
    NodeDomain {
        source,
        sorts: Sorts::only(first_sort(shapes, source as usize)),
    }
}

// The sorts that a path's automaton finds below nodes of a source.
fn sorts_along(
    automaton: &Auto,
    labels: &[Label],
    row: &Label,
    shapes: &[Shape],
    start: NodeDomain,
) -> Sorts
    requires { row.now ≡ row_label }
    ensures { result ≡ sorts_found (machine_of automaton.now) labels.now (shape_at shapes.now start.source) start.sorts }
{
    let any = Shape::Any;
    let shape = match shapes.get(start.source as usize) {
        Some(shape) => shape,
        None => &any,
    };
    sorts_found(automaton, labels, row, shape, start.sorts)
}

// Where the nodes can lie that a path leads to from such nodes. `Err`: memory.
fn nodes_along(
    alloc: Global,
    shapes: &[Shape],
    path: &Path,
    start: NodeDomain,
) -> Result<NodeDomain, AllocError>
    requires { positions_in path.now ≤ 120 }
    ensures { IfOk result (λ nodes. nodes ≡ nodes_along shapes.now path.now start) }
{
    let automaton = Auto::new(alloc, path)?;
    let labels = sample_labels(alloc, path)?;
    let row = Label::of_text(alloc, b"row")?;
    Ok(NodeDomain {
        source: start.source,
        sorts: sorts_along(&automaton, &labels, &row, shapes, start),
    })
}

/// The variable that an operator binds anew, if there is one, and where its nodes can lie. `Err`: memory.
pub fn bound_by(
    alloc: Global,
    shapes: &[Shape],
    domains: &NodeDomains,
    op: &Op,
) -> Result<Option<(Var, NodeDomain)>, AllocError>
    requires { IsShort (op_of op.now) }
    ensures { IfOk result (λ bound. bound ≡ shape_bound shapes.now (nodes_in domains.now) (shape_of (op_of op.now))) }
{
    match op {
        Op::Source { source, out } => Ok(Some((*out, source_nodes(shapes, *source)))),
        Op::GetDescendants {
            start,
            path,
            out,
            ..
        } => {
            let nodes = nodes_along(alloc, shapes, path, domains.of(*start))?;
            Ok(Some((*out, nodes)))
        }
        Op::GroupBy { out, .. } | Op::Concatenate { out, .. } | Op::CreateElement { out, .. } => {
            Ok(Some((*out, NodeDomain::none())))
        }
        Op::Select { .. }
        | Op::Join { .. }
        | Op::Project { .. }
        | Op::OrderBy { .. }
        | Op::TupleDestroy { .. } => Ok(None),
    }
}
