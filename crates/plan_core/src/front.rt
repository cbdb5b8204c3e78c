// The front of an operator: variables by whose first ones its bindings that agree stand side by side.
ghost use Rattle.std.specs.Prelude.{◌≡◌, ◌==◌, ◌++◌, ◌∷◌, ◌&&◌, [], IfOk, cond, length};
ghost use Rattle.std.specs.List.{list_any};
ghost use Rattle.mix_tree.specs.Keys.{key_eq, stands};
ghost use Rattle.mix_tree.specs.declared.var.Key.TheVariants.{Node as node_key};
ghost use Rattle.plan_core.specs.Fronts.{no_front, node_keys, shared, covers, are_contiguous};

use mix_tree::{Key, Var};
use std::alloc::{AllocError, Global};
use std::marker::Model;

// Whether a variable's node is a key.
pub(crate) fn is_node_key(keys: &[Key], var: Var) -> bool
    ensures { result ≡ list_any (key_eq (node_key var)) keys.now }
{
    let key = Key::Node(var);
    keys.iter().any(|k| key == *k)
}

// How many of these variables are node keys before the first that is none.
fn shared_count(keys: &[Key], vars: &[Var]) -> usize
    ensures { result ≡ length (shared keys.now vars.now) }
{
    let mut count = 0;
    'vars: for var in vars {
        if !is_node_key(keys, *var) {
            return count;
        }
        count += 1;
    }
    count
}

/// The first of these variables, as far as each is a node key.
#[tactic(auto, using(crate::proofs::FrontCode::shared_short, crate::proofs::FrontCode::shared_first))]
pub fn shared<'a>(keys: &[Key], vars: &'a [Var]) -> &'a [Var]
    ensures { result.now ≡ shared keys.now vars.now }
{
    vars.split_at(shared_count(keys, vars)).0
}

// Whether a variable is one of these.
fn is_among(vars: &[Var], var: Var) -> bool
    ensures { result ≡ list_any (λ w. w == var) vars.now }
{
    vars.iter().any(|w| *w == var)
}

// Whether bindings that agree in these variables agree by a key.
#[tactic(auto, using(crate::proofs::FrontCode::stands_nodes))]
fn covers_key(vars: &[Var], key: &Key) -> bool
    ensures { result ≡ stands (node_keys vars.now) key.now }
{
    match key {
        Key::Node(v) => is_among(vars, *v),
        Key::LabelOf(v) => is_among(vars, *v),
    }
}

// Whether bindings that agree in these variables agree by all of these keys.
fn covers(vars: &[Var], keys: &[Key]) -> bool
    ensures { result ≡ covers (node_keys vars.now) keys.now }
{
    keys.iter().all(|key| covers_key(vars, key))
}

/// Whether bindings that agree by these keys stand side by side, over an input with a front of these variables.
pub fn are_contiguous(keys: &[Key], vars: &[Var]) -> bool
    ensures { result ≡ are_contiguous keys.now vars.now }
{
    covers(shared(keys, vars), keys)
}

/// The front of an operator: variables in order, of whose first ones bindings that agree stand side by side, and whether no two bindings agree
/// in all of them.
#[derive(Drop)]
pub struct Front {
    vars: Vec<Var>,
    whole: bool,
}

impl Model for Front {
    ghost use Rattle.plan_core.specs.Fronts.{Front as FrontValue};

    ghost Value = { FrontValue };

    ghost view = { λ f. record { vars = f.vars.items; whole = f.whole } };
}

impl Front {
    /// A front without variables.
    pub fn empty(alloc: Global, whole: bool) -> Front
        ensures { result ≡ no_front whole }
    {
        Front {
            vars: Vec::new(alloc),
            whole,
        }
    }

    /// Its variables, in order.
    pub fn vars(&self) -> &[Var]
        ensures { result.now ≡ self.now.vars }
    {
        &self.vars
    }

    /// Whether no two bindings agree in all of its variables.
    pub fn is_whole(&self) -> bool
        ensures { result ≡ self.now.whole }
    {
        self.whole
    }

    /// The same front once more. `Err`: memory.
    pub fn copied(&self, alloc: Global) -> Result<Front, AllocError>
        ensures { IfOk result (λ f. f ≡ self.now) }
    {
        let vars = Vec::from_slice(alloc, &self.vars)?;
        Ok(Front {
            vars,
            whole: self.whole,
        })
    }

    /// The front after a visit from each binding, whose nodes are the values of `out`. `Err`: memory.
    pub fn extended(self, out: Var) -> Result<Front, AllocError>
        ensures { IfOk result (λ f. f ≡ record { vars = self.vars ++ cond self.whole (out ∷ []) []; whole = self.whole }) }
    {
        let whole = self.whole;
        let mut vars = self.vars;
        if whole {
            vars.push(out)?;
        }
        Ok(Front { vars, whole })
    }

    /// The front of pairs: each of its bindings with those of a right side. `Err`: memory.
    pub fn beside(self, right: Front) -> Result<Front, AllocError>
        ensures { IfOk result (λ f. f ≡ record { vars = self.vars ++ cond self.whole right.vars []; whole = self.whole && right.whole }) }
    {
        let mut vars = self.vars;
        if !self.whole {
            return Ok(Front { vars, whole: false });
        }
        vars.extend_from_slice(&right.vars)?;
        Ok(Front {
            vars,
            whole: right.whole,
        })
    }

    /// The front where of bindings that agree by keys the first alone is kept.
    pub fn kept_by(self, keys: &[Key]) -> Front
        ensures { result ≡ record { vars = shared keys.now self.vars; whole = are_contiguous keys.now self.vars } }
    {
        let mut vars = self.vars;
        vars.truncate(shared_count(keys, &vars));
        let whole = covers(&vars, keys);
        Front { vars, whole }
    }
}
