// The names of variables.
ghost use Rattle.std.specs.Prelude.{◌≡◌, ◌≤◌, length, IfOk, option_copied};
ghost use Rattle.xmas_read.specs.Tree.{bound_var, bound_names};
ghost use Rattle.xmas_read.specs.Value.{place_in};
ghost use Rattle.xmas_read.specs.Refusals.{has_name};

use mix_tree::Label;
use std::alloc::{AllocError, Global};
use xmas_text::{CondText, VarText};

/// The variable that a condition binds, where it binds one.
pub fn bound_var(cond: &CondText) -> Option<&VarText>
    ensures { option_copied result ≡ bound_var cond.now }
{
    match cond {
        CondText::FromSource { var, .. } | CondText::FromVar { var, .. } => Some(var),
        CondText::Compare { .. } => None,
    }
}

/// The names of the variables that conditions bind, as written.
pub fn bound_names(alloc: Global, conds: &[CondText]) -> Result<Vec<Label>, AllocError>
    ensures { IfOk result (λ names. names.items ≡ bound_names conds.now) }
{
    let mut names = Vec::new(alloc);
    for cond in conds {
        if let Some(var) = bound_var(cond) {
            names.push(var.name.copy(alloc)?)?;
        }
    }
    Ok(names)
}

/// The place of a name among names; how many there are, where it is none of them.
pub fn place_in(names: &[Label], name: &Label) -> usize
    ensures is { result ≡ place_in names.now name.now }
    ensures bound { result ≤ length names.now }
{
    for (i, other) in names.iter().enumerate() {
        if other == name {
            return i;
        }
    }
    names.len()
}

/// Whether a name is one of these.
pub fn has_name(names: &[Label], name: &Label) -> bool
    ensures { result ≡ has_name names.now name.now }
{
    names.iter().any(|other| other == name)
}
