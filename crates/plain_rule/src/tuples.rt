// The tuples of which the binding conditions of a body hold.
ghost use Rattle.std.specs.Prelude.{◌≡◌, ◌++◌, ◌∷◌, [], IfOk, OnOk};
ghost use Rattle.xmas_rule.specs.Conditions.{binders, binder_vars, flat, has};
ghost use Rattle.xmas_rule.specs.Reached.{reached, reaches, begun};
ghost use Rattle.xmas_rule.specs.Tuples.{extend};
ghost use Rattle.plain_rule.specs.Steps.{AreExtended, ForMatches, at_matches, at_places, from_document, from_node};

use crate::binding::{Binding, node_in, with_node};
use crate::matching::matches;
use crate::node::{Node, copy_place};
use mix_tree::{Place, Tree, Var};
use path_expr::Path;
use std::alloc::{AllocError, Global};
use xmas_rule::Cond;

// A variable, and the path over source documents that leads to its nodes.
#[derive(Clone, Copy)]
struct Leads<'a> {
    docs: &'a [Tree],
    path: &'a Path,
    var: Var,
}

// A variable, and the places of a source at which it stands.
#[derive(Clone, Copy)]
struct AtPlaces<'a> {
    var: Var,
    source: u32,
    places: &'a [Place],
}

// Adds the binding with a variable at each of these places.
fn push_at_places(
    alloc: Global,
    binding: &Binding,
    at: &AtPlaces<'_>,
    longer: &mut Vec<Binding>,
) -> Result<(), AllocError>
    ensures { OnOk result (longer.new.items ≡ longer.old.items ++ at_places binding.now at.now.var at.now.source at.now.places.now) }
{
    for place in at.places {
        let node = Node::new(at.source, copy_place(alloc, place)?);
        longer.push(with_node(alloc, binding, at.var, node)?)?;
    }
    Ok(())
}

// Adds the binding with a variable at each node that the path leads to from the start.
fn push_longer(
    alloc: Global,
    leads: &Leads<'_>,
    binding: &Binding,
    start: &Node,
    longer: &mut Vec<Binding>,
) -> Result<(), AllocError>
    ensures { ForMatches leads.now.docs.now (λ l. OnOk result (longer.new.items ≡ longer.old.items ++ at_matches l leads.now start.now binding.now)) }
{
    let places = matches(alloc, leads.docs, leads.path, start)?;
    let at = AtPlaces {
        var: leads.var,
        source: start.source(),
        places: &places,
    };
    push_at_places(alloc, binding, &at, longer)
}

// The tuples with a variable at each node that the path leads to from a source's document node.
fn extend_from_source(
    alloc: Global,
    leads: &Leads<'_>,
    bindings: &[Binding],
    source: u32,
) -> Result<Vec<Binding>, AllocError>
    ensures { IfOk result (λ longer. ForMatches leads.now.docs.now (λ lists. longer.items ≡ extend lists (from_document leads.now source) bindings.now)) }
{
    let start = Node::document(alloc, source);
    let mut longer = Vec::new(alloc);
    for binding in bindings {
        push_longer(alloc, leads, binding, &start, &mut longer)?;
    }
    Ok(longer)
}

// The tuples with a variable at each node that the path leads to from another variable's node.
fn extend_from_var(
    alloc: Global,
    leads: &Leads<'_>,
    bindings: &[Binding],
    start: Var,
) -> Result<Vec<Binding>, AllocError>
    ensures { IfOk result (λ longer. ForMatches leads.now.docs.now (λ lists. longer.items ≡ extend lists (from_node leads.now start) bindings.now)) }
{
    let mut longer = Vec::new(alloc);
    for binding in bindings {
        let from = node_in(alloc, binding, start)?;
        push_longer(alloc, leads, binding, &from, &mut longer)?;
    }
    Ok(longer)
}

// Whether a variable is one of these.
fn has_var(vars: &[Var], var: Var) -> bool
    ensures { result ≡ has vars.now var }
{
    vars.iter().any(|v| *v == var)
}

// The tuples with a variable that starts at another, where that is one of these; it becomes one of them.
fn extend_if_has(
    alloc: Global,
    leads: &Leads<'_>,
    vars: &mut Vec<Var>,
    start: Var,
    bindings: Vec<Binding>,
) -> Result<Vec<Binding>, AllocError>
    ensures tuples { IfOk result (λ longer. AreExtended leads.now.docs.now bindings.items (reached vars.old.items (from_node leads.now start ∷ [])) longer.items) }
    ensures vars { OnOk result (vars.new.items ≡ vars.old.items ++ binder_vars (reached vars.old.items (from_node leads.now start ∷ []))) }
{
    if !has_var(vars, start) {
        return Ok(bindings);
    }
    vars.push(leads.var)?;
    extend_from_var(alloc, leads, &bindings, start)
}

// The tuples with the variable of a condition that starts at one of the variables, which becomes one of them.
fn extend_if_reached(
    alloc: Global,
    docs: &[Tree],
    vars: &mut Vec<Var>,
    cond: &Cond,
    bindings: Vec<Binding>,
) -> Result<Vec<Binding>, AllocError>
    ensures tuples { IfOk result (λ longer. AreExtended docs.now bindings.items (reached vars.old.items (binders (cond.now ∷ []))) longer.items) }
    ensures vars { OnOk result (vars.new.items ≡ vars.old.items ++ binder_vars (reached vars.old.items (binders (cond.now ∷ [])))) }
{
    match cond {
        Cond::FromVar { start, path, var } => {
            let leads = Leads {
                docs,
                path,
                var: *var,
            };
            extend_if_has(alloc, &leads, vars, *start, bindings)
        },
        Cond::FromSource { .. } => Ok(bindings),
        Cond::Compare(_) => Ok(bindings),
    }
}

// The tuples with the variables of conditions that start, directly or through others, at a variable.
fn extend_reached(
    alloc: Global,
    docs: &[Tree],
    first: Var,
    conds: &[Cond],
    bindings: Vec<Binding>,
) -> Result<Vec<Binding>, AllocError>
    ensures { IfOk result (λ longer. AreExtended docs.now bindings.items (reached (first ∷ []) (binders conds.now)) longer.items) }
{
    let mut vars = Vec::new(alloc);
    vars.push(first)?;
    let mut longer = bindings;
    for cond in conds {
        longer = extend_if_reached(alloc, docs, &mut vars, cond, longer)?;
    }
    Ok(longer)
}

// The tuples with the variables of the component that a condition begins, where it does.
fn extend_begun(
    alloc: Global,
    docs: &[Tree],
    cond: &Cond,
    after: &[Cond],
    bindings: Vec<Binding>,
) -> Result<Vec<Binding>, AllocError>
    ensures { IfOk result (λ longer. AreExtended docs.now bindings.items (flat (begun cond.now (binders after.now))) longer.items) }
{
    match cond {
        Cond::FromSource { source, path, var } => {
            let leads = Leads {
                docs,
                path,
                var: *var,
            };
            let begun = extend_from_source(alloc, &leads, &bindings, *source)?;
            extend_reached(alloc, docs, *var, after, begun)
        },
        Cond::FromVar { .. } => Ok(bindings),
        Cond::Compare(_) => Ok(bindings),
    }
}

// All tuples of the body's variables, component by component.
pub fn body_tuples(alloc: Global, docs: &[Tree], conds: &[Cond]) -> Result<Vec<Binding>, AllocError>
    ensures { IfOk result (λ all. AreExtended docs.now ([] ∷ []) (flat (reaches (binders conds.now))) all.items) }
{
    let mut all = Vec::new(alloc);
    all.push(Binding::new(Vec::new(alloc)))?;
    let mut rest = conds;
    while let Some((cond, after)) = rest.split_first() {
        all = extend_begun(alloc, docs, cond, after, all)?;
        rest = after;
    }
    Ok(all)
}
