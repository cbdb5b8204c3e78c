// The comparisons of a body.
ghost use Rattle.std.specs.Prelude.{◌≡◌, ◌++◌, ◌∷◌, [], ℕ, false, cond, IfOk, OnOk};
ghost use Rattle.std.specs.List.{filter};
ghost use Rattle.mix_tree.specs.Comparisons.{compares_nodes, operand_label, passes as passes_test};
ghost use Rattle.mix_tree.specs.Nodes.{label_at};
ghost use Rattle.xmas_rule.specs.Bindings.{node_of};
ghost use Rattle.xmas_rule.specs.Conditions.{comparisons, AreCompared};
ghost use Rattle.xmas_rule.specs.Tuples.{passing};
ghost use Rattle.plain_rule.specs.Documents.{documents_of};

use crate::binding::{Binding, copy_binding, node_in};
use crate::documents::label_of;
use mix_tree::{Label, Operand, Test, Tree, Var};
use std::alloc::{AllocError, Global};
use xmas_rule::Cond;

// The label of a variable's node.
pub fn label_in(
    alloc: Global,
    docs: &[Tree],
    binding: &Binding,
    var: Var,
) -> Result<Label, AllocError>
    ensures { IfOk result (λ label. label ≡ label_at (documents_of docs.now) (node_of binding.now var)) }
{
    let node = node_in(alloc, binding, var)?;
    label_of(alloc, docs, &node)
}

// What a label is compared with.
fn right_label(
    alloc: Global,
    docs: &[Tree],
    operand: &Operand,
    binding: &Binding,
) -> Result<Label, AllocError>
    ensures { IfOk result (λ label. label ≡ operand_label (documents_of docs.now) operand.now (node_of binding.now)) }
{
    match operand {
        Operand::Var(var) => label_in(alloc, docs, binding, *var),
        Operand::Text(label) => label.copy(alloc),
    }
}

// Whether a comparison holds of a binding. A rule compares labels alone.
fn passes(alloc: Global, docs: &[Tree], test: &Test, binding: &Binding) -> Result<bool, AllocError>
    requires { compares_nodes test.now.op ≡ false }
    ensures { IfOk result (λ holds. holds ≡ passes_test (documents_of docs.now) test.now (node_of binding.now)) }
{
    let left = label_in(alloc, docs, binding, test.left)?;
    let right = right_label(alloc, docs, &test.right, binding)?;
    Ok(test.op.holds(&left, &right))
}

// Adds the binding, where a comparison holds of it.
fn keep_if_passing(
    alloc: Global,
    docs: &[Tree],
    test: &Test,
    binding: &Binding,
    kept: &mut Vec<Binding>,
) -> Result<(), AllocError>
    requires { compares_nodes test.now.op ≡ false }
    ensures { OnOk result (kept.new.items ≡ kept.old.items ++ cond (passes_test (documents_of docs.now) test.now (node_of binding.now)) (binding.now ∷ []) []) }
{
    if passes(alloc, docs, test, binding)? {
        kept.push(copy_binding(alloc, binding)?)?;
    }
    Ok(())
}

// The bindings of which a comparison holds.
fn keep_passing(
    alloc: Global,
    docs: &[Tree],
    test: &Test,
    bindings: &[Binding],
) -> Result<Vec<Binding>, AllocError>
    requires { compares_nodes test.now.op ≡ false }
    ensures { IfOk result (λ kept. kept.items ≡ filter (λ b. passes_test (documents_of docs.now) test.now (node_of b)) bindings.now) }
{
    let mut kept = Vec::new(alloc);
    for binding in bindings {
        keep_if_passing(alloc, docs, test, binding, &mut kept)?;
    }
    Ok(kept)
}

// The bindings that a condition keeps, where it is a comparison.
fn keep_by(
    alloc: Global,
    docs: &[Tree],
    cond: &Cond,
    bindings: Vec<Binding>,
) -> Result<Vec<Binding>, AllocError>
    requires { (variables : ℕ) × AreCompared variables (comparisons (cond.now ∷ [])) }
    ensures { IfOk result (λ kept. kept.items ≡ passing (documents_of docs.now) (comparisons (cond.now ∷ [])) bindings.items) }
{
    match cond {
        Cond::Compare(test) => keep_passing(alloc, docs, test, &bindings),
        Cond::FromSource { .. } => Ok(bindings),
        Cond::FromVar { .. } => Ok(bindings),
    }
}

// The bindings of which all comparisons hold.
pub fn select(
    alloc: Global,
    docs: &[Tree],
    conds: &[Cond],
    bindings: Vec<Binding>,
) -> Result<Vec<Binding>, AllocError>
    requires { (variables : ℕ) × AreCompared variables (comparisons conds.now) }
    ensures { IfOk result (λ kept. kept.items ≡ passing (documents_of docs.now) (comparisons conds.now) bindings.items) }
{
    let mut kept = bindings;
    for cond in conds {
        kept = keep_by(alloc, docs, cond, kept)?;
    }
    Ok(kept)
}
