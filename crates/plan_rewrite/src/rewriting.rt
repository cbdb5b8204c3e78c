// The plan whose selections are moved.
ghost use Rattle.std.specs.Prelude.{◌≡◌, ◌++◌, ◌∷◌, [], ℕ, map, IfOk, OnOk, length};
ghost use Rattle.plan_core.specs.PlanMade.{op_of, plan_value};
ghost use Rattle.plan_core.specs.Valid.{IsValid, inputs_of};
ghost use Rattle.plan_make.specs.Trees.{Tree};
ghost use Rattle.plan_rewrite.specs.Blocks.{blocks_of, without, block_over, AreBelow, SidesDiffer};
ghost use Rattle.plan_make.specs.Law.{MeansRule};
ghost use Rattle.plan_rewrite.specs.Law.{SameDocument};
ghost use Rattle.plan_rewrite.specs.Rewritten.{plan_for, rewritten_ops, rewritten_plan};
ghost use Rattle.xmas_rule.specs.RuleMade.{rule_of};
ghost use Rattle.xmas_rule.specs.Rules.{IsAccepted};

use crate::copy::copy_labels;
use crate::law::{rewriting_keeps_documents, rewriting_keeps_validity};
use crate::taking::next_block;
use mix_tree::Label;
use plan_core::{Op, Plan, valid_plans_are_typed};
use plan_make::make_plan;
use std::alloc::{AllocError, Global};
use xmas_rule::Rule;

// Puts the block of an operator after the others, from which those of its inputs are taken.
fn push_block(alloc: Global, blocks: &mut Vec<Vec<Op>>, op: &Op) -> Result<(), AllocError>
    requires sides { SidesDiffer (op_of op.now) }
    requires below { (of : ℕ → Tree) × AreBelow (op_of op.now) of (blocks_of blocks.old.items) }
    ensures { let o = op_of op.now in
        (of : ℕ → Tree) → AreBelow o of (blocks_of blocks.old.items)
        → OnOk result (blocks_of blocks.new.items ≡ without (inputs_of o) (blocks_of blocks.old.items) ++ block_over o of ∷ []) }
{
    let block = next_block(alloc, blocks, op)?;
    blocks.push(block)?;
    Ok(())
}

// The operators of a plan, each selection moved as far down as it goes.
fn rewrite_ops(alloc: Global, p: &Plan) -> Result<Vec<Op>, AllocError>
    requires { IsValid (plan_value p.now) }
    ensures { IfOk result (λ ops. map op_of ops.items ≡ rewritten_ops (map op_of p.now.ops.items)) }
{
    valid_plans_are_typed();
    let mut blocks = Vec::new(alloc);
    for op in p.ops.as_slice() {
        push_block(alloc, &mut blocks, op)?;
    }
    match blocks.pop() {
        Some(ops) => Ok(ops),
        None => Ok(Vec::new(alloc)),
    }
}

/// The plan whose selections are moved below joins, to a side that binds all variables of the comparison, or into joins (docs/MEANING.md, "Plans
/// with their selections moved"). It is valid, and over all source documents it has the same document. Only want of memory is
/// an error.
pub fn rewrite(alloc: Global, p: &Plan) -> Result<Plan, AllocError>
    requires { IsValid (plan_value p.now) }
    ensures made { IfOk result (λ q. plan_value q ≡ rewritten_plan (plan_value p.now)) }
    ensures valid { IfOk result (λ q. IsValid (plan_value q)) }
    ensures document { IfOk result (λ q. SameDocument (map op_of q.ops.items) (map op_of p.now.ops.items)) }
{
    rewriting_keeps_documents();
    rewriting_keeps_validity();
    Ok(Plan {
        ops: rewrite_ops(alloc, p)?,
        names: copy_labels(alloc, p.names.as_slice())?,
        sources: copy_labels(alloc, p.sources.as_slice())?,
    })
}

/// The plan of a rule that is accepted over sources with these names, its selections moved. A plan of more than 2^32 operators or variables
/// is answered as want of memory.
pub fn plan_view(alloc: Global, rule: &Rule, sources: &[Label]) -> Result<Plan, AllocError>
    requires { IsAccepted (length sources.now) (rule_of rule.now) }
    ensures made { IfOk result (λ plan. plan_value plan ≡ plan_for sources.now (rule_of rule.now)) }
    ensures valid { IfOk result (λ plan. IsValid (plan_value plan)) }

    // Over all source documents, its document is the rule's finished document.
    ensures document { IfOk result (λ plan. MeansRule (plan_value plan).ops (rule_of rule.now)) }
{
    let plan = make_plan(alloc, rule, sources)?;
    rewrite(alloc, &plan)
}
