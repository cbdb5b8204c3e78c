// The bindings of a rule's body, and its finished document.
ghost use Rattle.std.specs.Prelude.{ℕ, IfOk};
ghost use Rattle.xmas_rule.specs.Bindings.{AreBindings};
ghost use Rattle.xmas_rule.specs.Meaning.{IsFinished};
ghost use Rattle.xmas_rule.specs.RuleMade.{rule_of};
ghost use Rattle.xmas_rule.specs.Rules.{IsAccepted};
ghost use Rattle.plain_rule.specs.Documents.{documents_of};

use crate::binding::Binding;
use crate::instances::{Scope, labelled, push_instances};
use crate::ordering::in_order;
use crate::selecting::select;
use crate::tuples::body_tuples;
use mix_tree::Tree;
use std::alloc::{AllocError, Global};
use xmas_rule::{Rule, tuples_are_bindings};

/// The bindings of the body of an accepted rule, in its order. Source number n of the rule is tree n of `docs`; a source without a
/// tree has an empty document.
pub fn bindings(alloc: Global, rule: &Rule, docs: &[Tree]) -> Result<Vec<Binding>, AllocError>
    requires { (sources : ℕ) × IsAccepted sources (rule_of rule.now) }
    ensures { IfOk result (λ found. AreBindings (documents_of docs.now) (rule_of rule.now).conds (rule_of rule.now).order found.items) }
{
    tuples_are_bindings();
    let all = body_tuples(alloc, docs, &rule.conds)?;
    let kept = select(alloc, docs, &rule.conds, all)?;
    in_order(alloc, docs, rule.order, kept)
}

/// The finished document of an accepted rule over source documents. Source number n of the rule is tree n of `docs`; a source
/// without a tree has an empty document.
pub fn finished_document(alloc: Global, rule: &Rule, docs: &[Tree]) -> Result<Tree, AllocError>
    requires { (sources : ℕ) × IsAccepted sources (rule_of rule.now) }
    ensures { IfOk result (λ made. IsFinished (documents_of docs.now) (rule_of rule.now) made) }
{
    let found = bindings(alloc, rule, docs)?;
    let mut kids = Vec::new(alloc);
    let scope = Scope { docs, force: &[] };
    push_instances(alloc, &scope, &rule.template.items, &found, &mut kids)?;
    labelled(alloc, &rule.template.label, kids)
}
