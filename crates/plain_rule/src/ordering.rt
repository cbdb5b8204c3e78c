// The order of a body's bindings.
ghost use Rattle.std.specs.Prelude.{◌≡◌, ◌≤◌, ◌++◌, ◌∷◌, IfOk, OnOk, length, take, drop};
ghost use Rattle.xmas_rule.specs.Sorted.{sorted_by};
ghost use Rattle.xmas_rule.specs.Tuples.{in_order_of};
ghost use Rattle.plain_rule.specs.Documents.{documents_of};
ghost use Rattle.plain_rule.specs.Steps.{comes_before, inserted};

use crate::binding::{Binding, copy_binding};
use crate::selecting::label_in;
use mix_tree::{Tree, label_cmp};
use std::alloc::{AllocError, Global};
use xmas_rule::OrderBy;

// Whether a binding comes before another by the label that the rule orders by.
fn comes_first(
    alloc: Global,
    docs: &[Tree],
    order: &OrderBy,
    a: &Binding,
    b: &Binding,
) -> Result<bool, AllocError>
    ensures { IfOk result (λ first. first ≡ comes_before (documents_of docs.now) order.now a.now b.now) }
{
    let left = label_in(alloc, docs, a, order.var)?;
    let right = label_in(alloc, docs, b, order.var)?;
    if order.desc {
        Ok(label_cmp(&right, &left).is_lt())
    } else {
        Ok(label_cmp(&left, &right).is_lt())
    }
}

// Where a binding stands in sorted ones: before the first that doesn't come before it.
fn place_among(
    alloc: Global,
    docs: &[Tree],
    order: &OrderBy,
    binding: &Binding,
    sorted: &[Binding],
) -> Result<usize, AllocError>
    ensures within { IfOk result (λ at. at ≤ length sorted.now) }
    ensures place { IfOk result (λ at. inserted (documents_of docs.now) order.now binding.now sorted.now ≡ take at sorted.now ++ binding.now ∷ drop at sorted.now) }
{
    for (at, other) in sorted.iter().enumerate() {
        if !comes_first(alloc, docs, order, other, binding)? {
            return Ok(at);
        }
    }
    Ok(sorted.len())
}

// Puts a binding into sorted ones.
fn insert_into(
    alloc: Global,
    docs: &[Tree],
    order: &OrderBy,
    binding: &Binding,
    sorted: &mut Vec<Binding>,
) -> Result<(), AllocError>
    ensures { OnOk result (sorted.new.items ≡ inserted (documents_of docs.now) order.now binding.now sorted.old.items) }
{
    let at = place_among(alloc, docs, order, binding, sorted)?;
    sorted.insert(at, copy_binding(alloc, binding)?)?;
    Ok(())
}

// The bindings sorted by a variable's label; ties stay as they stood.
fn sort_by_label(
    alloc: Global,
    docs: &[Tree],
    order: &OrderBy,
    bindings: &[Binding],
) -> Result<Vec<Binding>, AllocError>
    ensures { IfOk result (λ sorted. sorted.items ≡ sorted_by (comes_before (documents_of docs.now) order.now) bindings.now) }
{
    let mut sorted = Vec::new(alloc);
    let mut left = bindings.len();
    while left > 0 {
        left -= 1;
        insert_into(alloc, docs, order, &bindings[left], &mut sorted)?;
    }
    Ok(sorted)
}

// The bindings in the order of the rule.
pub fn in_order(
    alloc: Global,
    docs: &[Tree],
    order: Option<OrderBy>,
    bindings: Vec<Binding>,
) -> Result<Vec<Binding>, AllocError>
    ensures { IfOk result (λ sorted. sorted.items ≡ in_order_of (documents_of docs.now) order bindings.items) }
{
    match order {
        Some(order) => sort_by_label(alloc, docs, &order, &bindings),
        None => Ok(bindings),
    }
}
