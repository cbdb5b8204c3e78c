// The names of the variables of a plan's text.
ghost use Rattle.std.specs.Prelude.{◌≡◌, ◌<◌, ◌^◌, [], ◌∷◌, OnOk, IfOk, length, map};
ghost use Rattle.std.specs.List.{filter};
ghost use Rattle.mix_words.specs.Words.{is_name};
ghost use Rattle.plan_read.specs.Lines.{line_of};
ghost use Rattle.plan_read.specs.Variables.{line_vars, with_new, names_in};

use crate::lines::PlanLine;
use crate::names::Names;
use crate::variables::line_vars;
use mix_words::words::is_script_name;
use std::alloc::{AllocError, Global};

// The most names that a text may have.
const NAMES: usize = 4_294_967_295;

// Adds a name.
fn add_name(alloc: Global, names: &mut Names, name: &[u8]) -> Result<(), AllocError>
    requires { length names.old < 2 ^ 32 }
    ensures few { OnOk result (length names.new < 2 ^ 32) }
    ensures all { OnOk result (names.new ≡ with_new names.old (name.now ∷ [])) }
{
    if names.len() >= NAMES {
        return Err(AllocError);
    }
    names.add(alloc, name)
}

// Adds the names of a line's variables.
fn add_names(alloc: Global, names: &mut Names, line: &[u8]) -> Result<(), AllocError>
    requires { length names.old < 2 ^ 32 }
    ensures few { OnOk result (length names.new < 2 ^ 32) }
    ensures all { OnOk result (names.new ≡ with_new names.old (filter is_name (line_vars line.now))) }
{
    let vars = line_vars(alloc, line)?;
    'vars: for var in vars.iter() {
        if is_script_name(var) {
            add_name(alloc, names, var)?;
        }
    }
    Ok(())
}

/// The names of the variables of lines, in the order in which they first have them.
pub fn names_in(alloc: Global, lines: &[PlanLine<'_>]) -> Result<Names, AllocError>
    ensures few { IfOk result (λ names. length names < 2 ^ 32) }
    ensures all { IfOk result (λ names. names ≡ names_in (map line_of lines.now)) }
{
    let mut names = Names::new(alloc);
    'lines: for line in lines {
        add_names(alloc, &mut names, line.text)?;
    }
    Ok(names)
}
