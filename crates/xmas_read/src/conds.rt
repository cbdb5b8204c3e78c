// The conditions of the rule that a tree stands for.
ghost use Rattle.std.specs.Prelude.{◌≡◌, ◌<◌, ◌^◌, false, map, IfOk, length};
ghost use Rattle.std.specs.List.{list_any};
ghost use Rattle.xmas_read.specs.Value.{place_in, path_value, op_value, operand_value, cond_value};
ghost use Rattle.xmas_read.specs.Refusals.{has_path, is_nested, has_many};
ghost use Rattle.xmas_read.specs.Results.{names_of_sources};

use crate::values::{operand_of, var_value};
use mix_catalog::Catalog;
use mix_tree::{Label, Test, TestOp};
use path_expr::Path;
use std::alloc::{AllocError, Global};
use xmas_rule::Cond;
use xmas_text::{Comparison, CondText, OperandText, PathText, VarText};

/// The number of the source of a name; how many sources there are, where none has it.
fn source_number(catalog: &Catalog, name: &Label) -> u32
    ensures { result ≡ place_in (names_of_sources catalog.now) name.now }
{
    match catalog.find(name) {
        Some(number) => number,
        None => catalog.len(),
    }
}

// A path that passes no limit.
fn path_of(path: PathText) -> Path
    requires nesting { is_nested path ≡ false }
    requires positions { has_many path ≡ false }
    ensures { result ≡ path_value path }
{
    match path {
        Ok(path) => path,
        Err(_) => unreachable!(),
    }
}

// What a comparison of a rule's text asks.
fn op_of(comparison: Comparison) -> TestOp
    ensures { result ≡ op_value comparison }
{
    match comparison {
        Comparison::Eq => TestOp::Eq,
        Comparison::Ne => TestOp::Ne,
        Comparison::Lt => TestOp::Lt,
        Comparison::Le => TestOp::Le,
        Comparison::Gt => TestOp::Gt,
        Comparison::Ge => TestOp::Ge,
    }
}

// The value of a comparison.
fn test_of(
    alloc: Global,
    names: &[Label],
    left: VarText,
    op: Comparison,
    right: OperandText,
) -> Result<Test, AllocError>
    requires { length names.now < 2 ^ 32 }
    ensures { IfOk result (λ test. test ≡ record { left = place_in names.now left.name; op = op_value op; right = operand_value names.now right }) }
{
    Ok(Test {
        left: var_value(names, &left),
        op: op_of(op),
        right: operand_of(alloc, names, &right)?,
    })
}

// A condition whose path passes no limit.
fn cond_of(
    alloc: Global,
    catalog: &Catalog,
    names: &[Label],
    text: CondText,
) -> Result<Cond, AllocError>
    requires few { length names.now < 2 ^ 32 }
    requires nesting { has_path is_nested text ≡ false }
    requires positions { has_path has_many text ≡ false }
    ensures { IfOk result (λ cond. cond ≡ cond_value (names_of_sources catalog.now) names.now text) }
{
    match text {
        CondText::FromSource {
            source,
            path,
            var,
            ..
        } => Ok(Cond::FromSource {
            source: source_number(catalog, &source),
            path: path_of(path),
            var: var_value(names, &var),
        }),
        CondText::FromVar { start, path, var } => Ok(Cond::FromVar {
            start: var_value(names, &start),
            path: path_of(path),
            var: var_value(names, &var),
        }),
        CondText::Compare { left, op, right } => {
            Ok(Cond::Compare(test_of(alloc, names, left, op, right)?))
        }
    }
}

/// The conditions of a rule, whose paths pass no limit.
pub fn conds_of(
    alloc: Global,
    catalog: &Catalog,
    names: &[Label],
    texts: Vec<CondText>,
) -> Result<Vec<Cond>, AllocError>
    requires few { length names.now < 2 ^ 32 }
    requires nesting { list_any (has_path is_nested) texts.items ≡ false }
    requires positions { list_any (has_path has_many) texts.items ≡ false }
    ensures { IfOk result (λ conds. conds.items ≡ map (cond_value (names_of_sources catalog.now) names.now) texts.items) }
{
    let mut conds = Vec::new(alloc);
    for text in texts {
        conds.push(cond_of(alloc, catalog, names, text)?)?;
    }
    Ok(conds)
}
