// What is read off an operator: its inputs, its source, the variable that it binds, and whether it has a single binding.
ghost use Rattle.std.specs.Prelude.{◌≡◌, false, nat_lt, option_to_list, slice_index_or, MatchBool};
ghost use Rattle.std.specs.List.{list_all};
ghost use Rattle.plan_core.specs.PlanMade.{op_of};
ghost use Rattle.plan_core.specs.Valid.{HasSource, inputs_of, outs_of, is_single};
ghost use Rattle.plan_read.specs.Ops.{inputs_in, is_destroy};

use mix_tree::Var;
use plan_core::Op;

/// The inputs of an operator.
#[derive(Clone, Copy)]
pub enum Inputs {
    NoInput,
    OneInput(u32),
    TwoInputs(u32, u32),
}

/// The inputs of an operator.
pub fn inputs_of(op: &Op) -> Inputs
    ensures { inputs_in result ≡ inputs_of (op_of op.now) }
{
    match op {
        Op::Source { .. } => Inputs::NoInput,
        Op::Join { left, right, .. } => Inputs::TwoInputs(*left, *right),
        Op::GetDescendants { input, .. }
        | Op::Select { input, .. }
        | Op::Project { input, .. }
        | Op::GroupBy { input, .. }
        | Op::OrderBy { input, .. }
        | Op::Concatenate { input, .. }
        | Op::CreateElement { input, .. }
        | Op::TupleDestroy { input, .. } => Inputs::OneInput(*input),
    }
}

/// Whether each input of an operator is smaller than a number.
pub fn has_smaller_inputs(op: &Op, number: u32) -> bool
    ensures { result ≡ list_all (λ i. nat_lt i number) (inputs_of (op_of op.now)) }
{
    match inputs_of(op) {
        Inputs::NoInput => true,
        Inputs::OneInput(input) => input < number,
        Inputs::TwoInputs(left, right) => left < number && right < number,
    }
}

/// Whether the source of an operator, if it has one, is one of so many.
pub fn has_source(op: &Op, count: u32) -> bool
    ensures { MatchBool result (HasSource count (op_of op.now)) (HasSource count (op_of op.now) → ⊥) }
{
    match op {
        Op::Source { source, .. } => *source < count,
        _ => true,
    }
}

/// The variable that an operator binds.
pub fn out_of(op: &Op) -> Option<Var>
    ensures { option_to_list result ≡ outs_of (op_of op.now) }
{
    match op {
        Op::Source { out, .. }
        | Op::GetDescendants { out, .. }
        | Op::GroupBy { out, .. }
        | Op::Concatenate { out, .. }
        | Op::CreateElement { out, .. } => Some(*out),
        Op::Select { .. }
        | Op::Join { .. }
        | Op::Project { .. }
        | Op::OrderBy { .. }
        | Op::TupleDestroy { .. } => None,
    }
}

/// Whether an operator is a `tupleDestroy`.
pub fn is_destroy(op: &Op) -> bool
    ensures { result ≡ is_destroy (op_of op.now) }
{
    match op {
        Op::TupleDestroy { .. } => true,
        _ => false,
    }
}

/// Whether the operator of a number has a single binding, by whether the operators from 0 on have one.
pub fn is_single_at(single: &[bool], number: u32) -> bool
    ensures { result ≡ slice_index_or single.now number false }
{
    match single.get(number as usize) {
        Some(is) => *is,
        None => false,
    }
}

/// Whether an operator has a single binding, by whether the operators from 0 on have one.
pub fn is_single(op: &Op, single: &[bool]) -> bool
    ensures { result ≡ is_single (op_of op.now) (λ i. slice_index_or single.now i false) }
{
    match op {
        Op::Source { .. } => true,
        Op::Join { left, right, tests } => {
            tests.is_empty() && is_single_at(single, *left) && is_single_at(single, *right)
        }
        Op::GroupBy { keys, .. } => keys.is_empty(),
        Op::Project { input, .. }
        | Op::Concatenate { input, .. }
        | Op::CreateElement { input, .. } => is_single_at(single, *input),
        Op::GetDescendants { .. }
        | Op::Select { .. }
        | Op::OrderBy { .. }
        | Op::TupleDestroy { .. } => false,
    }
}
