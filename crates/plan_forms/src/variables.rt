// Which variables an operator binds.
ghost use Rattle.std.specs.Prelude.{◌≡◌, ◌<◌, is_some, length, map};
ghost use Rattle.mix_tree.specs.Keys.{has_var, key_var};
ghost use Rattle.plan_core.specs.ByNumber.{op_at};
ghost use Rattle.plan_core.specs.PlanMade.{op_of};
ghost use Rattle.plan_core.specs.Typed.{IsTyped};
ghost use Rattle.plan_core.specs.Valid.{kinds};

use mix_tree::{Key, Var};
use plan_core::Op;

/// The variable that a key names.
pub fn var_of(key: Key) -> Var
    ensures { result ≡ key_var key }
{
    match key {
        Key::Node(v) => v,
        Key::LabelOf(v) => v,
    }
}

/// Whether a variable is that of one of these keys.
pub fn names_var(keys: &[Key], v: Var) -> bool
    ensures { result ≡ has_var keys.now v }
{
    for key in keys {
        if var_of(*key) == v {
            return true;
        }
    }
    false
}

/// The operator of a number.
fn operator(ops: &[Op], n: u32) -> &Op
    requires { n < length (map op_of ops.now) }
    ensures { op_of result.now ≡ op_at (map op_of ops.now) n }
{
    &ops[n as usize]
}

/// Whether an operator binds a variable.
pub fn binds(ops: &[Op], n: u32, v: Var) -> bool
    requires typed { IsTyped (map op_of ops.now) }
    requires op { n < length (map op_of ops.now) }
    ensures { result ≡ is_some (kinds (map op_of ops.now) n v) }
{
    match operator(ops, n) {
        Op::Source { out, .. } => *out == v,
        Op::GetDescendants { input, out, .. } => *out == v || binds(ops, *input, v),
        Op::Select { input, .. } => binds(ops, *input, v),
        Op::Join { left, right, .. } => binds(ops, *left, v) || binds(ops, *right, v),
        Op::Project { input, keys } => names_var(keys, v) && binds(ops, *input, v),
        Op::GroupBy {
            input,
            keys,
            out,
            ..
        } => *out == v || (names_var(keys, v) && binds(ops, *input, v)),
        Op::OrderBy { input, .. } => binds(ops, *input, v),
        Op::Concatenate { input, out, .. } => *out == v || binds(ops, *input, v),
        Op::CreateElement { input, out, .. } => *out == v || binds(ops, *input, v),
        Op::TupleDestroy { .. } => false,
    }
}
