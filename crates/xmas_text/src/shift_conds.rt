// Tokens of conditions and of the order.
ghost use Rattle.std.specs.Prelude.{◌≡◌, IfOk};
ghost use Rattle.xmas_text.specs.Drafts as drafts;
ghost use Rattle.xmas_text.specs.Shifted as shifted;

use crate::cond::{CondText, OperandText};
use crate::draft::{Built, Draft, Pending, StartText};
use crate::rule::OrderText;
use crate::var::VarText;
use std::alloc::AllocError;
use xmas_tokens::{Comparison, Lexeme, Mark, PathText};

/// A token where a condition begins.
pub fn shift_cond(built: Built, at: usize, token: Lexeme) -> Draft
    ensures { drafts.draft_in result ≡ shifted.cond_shifted (drafts.built_in built) at token }
{
    let pending = match token {
        Lexeme::Name(name) => Pending::CondFrom(StartText::Source(at, name)),
        Lexeme::Var(name) => Pending::CondFrom(StartText::Var(VarText { at, name })),
        _other => Pending::Cond,
    };
    Draft { built, pending }
}

// An operator after the first word of a condition.
fn compared(start: StartText, op: Comparison) -> Pending
    ensures { result ≡ shifted.operator_after start op }
{
    match start {
        StartText::Var(left) => Pending::Compared(left, op),
        StartText::Source(at, name) => Pending::CondFrom(StartText::Source(at, name)),
    }
}

/// A token after the first word of a condition.
pub fn shift_from(built: Built, start: StartText, token: Lexeme) -> Draft
    ensures { drafts.draft_in result ≡ shifted.from_shifted (drafts.built_in built) start token }
{
    let pending = match token {
        Lexeme::Path(path) => Pending::CondPath(start, path),
        Lexeme::Operator(op) => compared(start, op),
        _other => Pending::CondFrom(start),
    };
    Draft { built, pending }
}

// The draft with one more condition.
fn push_cond(built: Built, cond: CondText) -> Result<Draft, AllocError>
    ensures { IfOk result (λ d. drafts.draft_in d ≡ shifted.with_cond (drafts.built_in built) cond) }
{
    let Built {
        open,
        items,
        mut conds,
        order,
    } = built;
    conds.push(cond)?;
    let built = Built {
        open,
        items,
        conds,
        order,
    };
    Ok(Draft {
        built,
        pending: Pending::Done,
    })
}

/// The draft after a token that follows a path.
pub fn shift_path(
    built: Built,
    start: StartText,
    path: PathText,
    at: usize,
    token: Lexeme,
) -> Result<Draft, AllocError>
    ensures { IfOk result (λ d. drafts.draft_in d ≡ shifted.path_shifted (drafts.built_in built) start path at token) }
{
    let Lexeme::Var(name) = token else {
        return Ok(Draft {
            built,
            pending: Pending::CondPath(start, path),
        });
    };
    let var = VarText { at, name };
    let cond = match start {
        StartText::Source(at, source) => CondText::FromSource {
            at,
            source,
            path,
            var,
        },
        StartText::Var(start) => CondText::FromVar { start, path, var },
    };
    push_cond(built, cond)
}

/// A token after an operator.
pub fn shift_compared(
    built: Built,
    left: VarText,
    op: Comparison,
    at: usize,
    token: Lexeme,
) -> Result<Draft, AllocError>
    ensures { IfOk result (λ d. drafts.draft_in d ≡ shifted.compared_shifted (drafts.built_in built) left op at token) }
{
    let right = match token {
        Lexeme::Var(name) => OperandText::Var(VarText { at, name }),
        Lexeme::Quoted(label) => OperandText::Text(label),
        _ => return Ok(Draft {
            built,
            pending: Pending::Compared(left, op),
        }),
    };
    push_cond(built, CondText::Compare { left, op, right })
}

// The order, with `DESC` after it.
fn descending(order: Option<OrderText>) -> Option<OrderText>
    ensures { result ≡ shifted.descended order }
{
    let OrderText { var, desc: _ } = order?;
    Some(OrderText { var, desc: true })
}

/// A token after a condition.
pub fn shift_done(built: Built, at: usize, token: Lexeme) -> Draft
    ensures { drafts.draft_in result ≡ shifted.done_shifted (drafts.built_in built) at token }
{
    let Built {
        open,
        items,
        conds,
        order,
    } = built;
    let (order, pending) = match token {
        Lexeme::Fixed(Mark::And) => (order, Pending::Cond),
        Lexeme::Var(name) => (
            Some(OrderText {
                var: VarText { at, name },
                desc: false,
            }),
            Pending::Done,
        ),
        Lexeme::Fixed(Mark::Desc) => (descending(order), Pending::Done),
        _other => (order, Pending::Done),
    };
    let built = Built {
        open,
        items,
        conds,
        order,
    };
    Draft { built, pending }
}
