// The visit along a path below the nodes of a variable.
ghost use Rattle.std.specs.Prelude.{◌≡◌, ◌≤◌, IfOk};
ghost use Rattle.path_auto.specs.Automaton.{machine_of};
ghost use Rattle.path_expr.specs.Form.{positions_in};
ghost use Rattle.browse_visit.specs.declared.shape.Shape.TheVariants.{Any};
ghost use Rattle.browse_visit.specs.Shapes.{row_label, shape_at};
ghost use Rattle.plan_class.specs.Known.{visit_in, visit_along};

use crate::domain::Domain;
use browse_profile::Profile;
use browse_visit::{Shape, sample_labels, sorts_found, sorts_profile};
use mix_tree::Label;
use path_auto::Auto;
use path_expr::Path;
use std::alloc::{AllocError, Global};

/// A visit: its profile, and what its nodes can be.
#[derive(Clone, Copy)]
pub struct Visit {
    pub profile: Profile,
    pub found: Domain,
}

// The visit by a path's automaton below nodes of a source of this shape.
fn visit_in(automaton: &Auto, labels: &[Label], row: &Label, shape: &Shape, start: Domain) -> Visit
    requires { row.now ≡ row_label }
    ensures { result ≡ visit_in (machine_of automaton.now) labels.now shape.now start }
{
    let below = sorts_profile(automaton, labels, row, shape, start.sorts);
    let found = sorts_found(automaton, labels, row, shape, start.sorts);
    Visit {
        profile: Profile::one_skip().in_turn(below),
        found: Domain::of_nodes(start.source, found),
    }
}

// The shape of a source by its number; past the end nothing is known of it.
fn shape_at<'a>(shapes: &'a [Shape], any: &'a Shape, source: u32) -> &'a Shape
    requires { any.now ≡ Any }
    ensures { result.now ≡ shape_at shapes.now source }
{
    match shapes.get(source as usize) {
        Some(shape) => shape,
        None => any,
    }
}

// The visit by a path's automaton below nodes of one of some sources.
fn visit_by(
    automaton: &Auto,
    labels: &[Label],
    row: &Label,
    shapes: &[Shape],
    start: Domain,
) -> Visit
    requires { row.now ≡ row_label }
    ensures { result ≡ visit_in (machine_of automaton.now) labels.now (shape_at shapes.now start.source) start }
{
    let any = Shape::Any;
    let shape = shape_at(shapes, &any, start.source);
    visit_in(automaton, labels, row, shape, start)
}

/// The visit along a path below each of these nodes, after the skip for its start. `Err`: memory.
pub fn visit_along(
    alloc: Global,
    shapes: &[Shape],
    path: &Path,
    start: Domain,
) -> Result<Visit, AllocError>
    requires { positions_in path.now ≤ 120 }
    ensures { IfOk result (λ v. v ≡ visit_along shapes.now path.now start) }
{
    let automaton = Auto::new(alloc, path)?;
    let labels = sample_labels(alloc, path)?;
    let row = Label::of_text(alloc, b"row")?;
    Ok(visit_by(&automaton, &labels, &row, shapes, start))
}
