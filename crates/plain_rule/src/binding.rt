// Bindings: tuples of nodes.
ghost use Rattle.std.specs.Prelude.{◌≡◌, ◌++◌, ◌∷◌, [], IfOk};
ghost use Rattle.xmas_rule.specs.Bindings.{node_of};

use crate::node::Node;
use mix_tree::Var;
use std::alloc::{AllocError, Global};
use std::marker::Model;

/// A binding: each variable with its node, in the variable order.
#[derive(Drop)]
pub struct Binding {
    entries: Vec<(Var, Node)>,
}

impl Model for Binding {
    ghost use Rattle.xmas_rule.specs.Bindings.{Binding};

    ghost Value = { Binding };

    ghost view = { λ b. b.entries.items };
}

impl Binding {
    /// The binding of these variables.
    pub fn new(entries: Vec<(Var, Node)>) -> Binding
        ensures { result ≡ entries.items }
    {
        Binding { entries }
    }

    /// The variables with their nodes.
    pub fn entries(&self) -> &[(Var, Node)]
        ensures { result.now ≡ self.now }
    {
        &self.entries
    }
}

// A copy of variables and their nodes.
fn copy_entries(alloc: Global, entries: &[(Var, Node)]) -> Result<Vec<(Var, Node)>, AllocError>
    ensures { IfOk result (λ copies. copies.items ≡ entries.now) }
{
    let mut copies = Vec::new(alloc);
    for entry in entries {
        copies.push((entry.0, entry.1.copy(alloc)?))?;
    }
    Ok(copies)
}

// A copy of a binding.
pub fn copy_binding(alloc: Global, binding: &Binding) -> Result<Binding, AllocError>
    ensures { IfOk result (λ copy. copy ≡ binding.now) }
{
    Ok(Binding::new(copy_entries(alloc, binding.entries())?))
}

// The binding with one variable more.
pub fn with_node(
    alloc: Global,
    binding: &Binding,
    var: Var,
    node: Node,
) -> Result<Binding, AllocError>
    ensures { IfOk result (λ longer. longer ≡ binding.now ++ (var, node) ∷ []) }
{
    let mut entries = copy_entries(alloc, binding.entries())?;
    entries.push((var, node))?;
    Ok(Binding::new(entries))
}

// The node of a variable among these; a document node where it has none.
fn node_among(alloc: Global, entries: &[(Var, Node)], var: Var) -> Result<Node, AllocError>
    ensures { IfOk result (λ node. node ≡ node_of entries.now var) }
{
    for entry in entries {
        if entry.0 == var {
            return entry.1.copy(alloc);
        }
    }
    Ok(Node::document(alloc, 0))
}

// The node of a variable in a binding; a document node where it has none.
pub fn node_in(alloc: Global, binding: &Binding, var: Var) -> Result<Node, AllocError>
    ensures { IfOk result (λ node. node ≡ node_of binding.now var) }
{
    node_among(alloc, binding.entries(), var)
}
