// The operators of a plan's lines, one by one.
ghost use Rattle.std.specs.Prelude.{◌≡◌, ◌<◌, ◌≤◌, ◌^◌, IfOk, IfErr, IfSome, nat_lt, length, map, option_map};
ghost use Rattle.std.specs.List.{list_any};
ghost use Rattle.plan_core.specs.PlanMade.{op_of};
ghost use Rattle.plan_core.specs.Shapes.{shape_of};
ghost use Rattle.plan_read.specs.Checks.{positions};
ghost use Rattle.plan_read.specs.Drafts.{numbered_of, numbered_pair, AreDrafts};
ghost use Rattle.plan_read.specs.Lines.{line_of};
ghost use Rattle.plan_read.specs.Reading.{words_read, line_read};
ghost use Rattle.plan_read.specs.Results.{RefusesLine};
ghost use Rattle.plan_read.specs.Variables.{line_vars, is_below};

use crate::PlanFault;
use crate::forms::read_keyword;
use crate::lines::PlanLine;
use crate::names::Names;
use crate::numbers::op_number;
use crate::parts::POSITIONS;
use crate::variables::{is_below, line_vars};
use crate::words::cut;
use mix_catalog::Catalog;
use path_expr::count_positions;
use plan_core::Op;
use std::alloc::{AllocError, Global};

/// The operator of a line.
#[derive(Drop)]
pub struct Draft {
    /// The line's number.
    pub line: usize,
    /// The number before the operator.
    pub number: u32,
    pub op: Op,
    /// Whether its path has too many label positions.
    pub is_long: bool,
    /// Whether a variable without a name has a number that is smaller than the number of names.
    pub is_low: bool,
}

// Whether an operator has a path of too many label positions.
fn has_long_path(op: &Op) -> bool
    requires { positions (shape_of (op_of op.now)) < 2 ^ 64 }
    ensures { result ≡ nat_lt 120 (positions (shape_of (op_of op.now))) }
{
    match op {
        Op::GetDescendants { path, .. } => count_positions(path) > POSITIONS,
        _ => false,
    }
}

// Whether one of these is a smaller number.
fn any_below(vars: &[&[u8]], count: usize) -> bool
    ensures { result ≡ list_any (λ v. is_below count v.now) vars.now }
{
    vars.iter().any(|var| is_below(var, count))
}

// Whether a variable of a line without a name has a number that is smaller than the number of names.
fn has_low_var(alloc: Global, names: &Names, line: &[u8]) -> Result<bool, AllocError>
    ensures { IfOk result (λ low. low ≡ list_any (is_below (length names.now)) (line_vars line.now)) }
{
    let vars = line_vars(alloc, line)?;
    let count = names.len();
    Ok(any_below(&vars, count))
}

// The operator of a line's words, with the number before it.
fn read_words(
    alloc: Global,
    names: &Names,
    catalog: &Catalog,
    words: &[&[u8]],
) -> Result<Option<(u32, Op)>, AllocError>
    requires { length names.now < 2 ^ 32 }
    ensures reads { IfOk result (λ found. option_map numbered_pair found ≡ words_read names.now catalog.now (map (λ w. w.now) words.now)) }
    ensures short { IfOk result (λ found. IfSome found (λ f. positions (shape_of (op_of f.1)) ≤ 121)) }
{
    let [number, keyword, rest @ ..] = words else {
        return Ok(None);
    };
    let Some(number) = op_number(number) else {
        return Ok(None);
    };
    match read_keyword(alloc, names, catalog, keyword, rest)? {
        Some(op) => Ok(Some((number, op))),
        None => Ok(None),
    }
}

// The operator of a line; `None` where it is of no form.
fn read_line(
    alloc: Global,
    names: &Names,
    catalog: &Catalog,
    line: PlanLine<'_>,
) -> Result<Option<Draft>, AllocError>
    requires { length names.now < 2 ^ 32 }
    ensures reads { IfOk result (λ found. option_map numbered_of found ≡ line_read names.now catalog.now line.entry.text.now) }
    ensures line { IfOk result (λ found. IfSome found (λ d. d.line ≡ line.entry.number)) }
    ensures long { IfOk result (λ found. IfSome found (λ d. d.is_long ≡ nat_lt 120 (positions (shape_of (op_of d.op))))) }
    ensures low { IfOk result (λ found. IfSome found (λ d. d.is_low ≡ list_any (is_below (length names.now)) (line_vars line.entry.text.now))) }
{
    let words = cut(alloc, line.text, b' ')?;
    let Some((number, op)) = read_words(alloc, names, catalog, &words)? else {
        return Ok(None);
    };
    let is_long = has_long_path(&op);
    let is_low = has_low_var(alloc, names, line.text)?;
    Ok(Some(Draft {
        line: line.number,
        number,
        op,
        is_long,
        is_low,
    }))
}

/// The operators of lines, or the first line of no form.
pub fn read_lines(
    alloc: Global,
    names: &Names,
    catalog: &Catalog,
    lines: &[PlanLine<'_>],
) -> Result<Vec<Draft>, PlanFault>
    requires { length names.now < 2 ^ 32 }
    ensures ok { IfOk result (λ drafts. AreDrafts names.now catalog.now (map line_of lines.now) drafts.items) }
    ensures err { IfErr result (RefusesLine names.now catalog.now (map line_of lines.now)) }
{
    let mut drafts = Vec::new(alloc);
    'lines: for line in lines {
        let Some(draft) = read_line(alloc, names, catalog, *line)? else {
            return Err(PlanFault::Line(line.number));
        };
        drafts.push(draft)?;
    }
    Ok(drafts)
}
