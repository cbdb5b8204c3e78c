// Positions of an input, sorted by labels.
ghost use Rattle.std.specs.Prelude.{◌≡◌, true, false, OnOk, IfOk, map};
ghost use Rattle.std.specs.Ordering.{is_lt};
ghost use Rattle.mix_tree.specs.LabelOrder.{label_order};
ghost use Rattle.plan_core.specs.Unary.{comes_before};
ghost use Rattle.lazy_binding.specs.SortedLists.{by_label};

use crate::position::Position;
use mix_tree::{Label, label_cmp};
use std::alloc::{AllocError, Global};
use std::cmp::Ordering;
use std::rc::Rc;

/// A position, and the label by which it is sorted.
#[derive(Drop)]
pub struct Labelled {
    pub label: Label,
    pub place: Rc<Position>,
}

/// How two labels stand to each other, by the label order or by that order turned round.
fn compare(desc: bool, a: &Label, b: &Label) -> Ordering
    ensures down { desc ≡ true → result ≡ label_order b.now a.now }
    ensures up { desc ≡ false → result ≡ label_order a.now b.now }
    ensures before { is_lt result ≡ comes_before desc a.now b.now }
{
    if desc {
        label_cmp(b, a)
    } else {
        label_cmp(a, b)
    }
}

/// Sorts by the label order, or by that order turned round; ties stay as they stood.
pub fn sort_labelled(rows: &mut Vec<Labelled>, desc: bool) -> Result<(), AllocError>
    ensures { OnOk result (rows.new.items ≡ by_label desc rows.old.items) }
{
    rows.sort_by(|a, b| compare(desc, &a.label, &b.label))?;
    Ok(())
}

/// The positions of these labelled ones, in their order.
pub fn places(alloc: Global, rows: Vec<Labelled>) -> Result<Vec<Rc<Position>>, AllocError>
    ensures { IfOk result (λ list. list.items ≡ map (λ row. row.place) rows.items) }
{
    rows.into_iter().map(|row| row.place).collect(alloc)
}
