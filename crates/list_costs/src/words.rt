// What a list costs, in words.
ghost use Rattle.std.specs.Prelude.{◌≡◌, ◌++◌, IfOk, OnOk, string_bytes};
ghost use Rattle.list_costs.specs.Words.{bound_words, cost_words, indent, list_lines, once_words, reason_line};

use browse_profile::{Profile, larger};
use mix_tree::Label;
use std::alloc::{AllocError, Global};

/// How an element of the answer stands there.
#[derive(Clone, Copy)]
pub struct Standing {
    /// How many lists of elements stand around its own.
    pub depth: usize,
    /// Whether it stands once in the element around it.
    pub once: bool,
}

// A number that is promised, or that none is. `Err`: memory.
fn bound_words(alloc: Global, bound: Option<u64>) -> Result<String, AllocError>
    ensures { IfOk result (λ words. string_bytes words ≡ bound_words bound) }
{
    match bound {
        Some(most) => format!(in alloc; "{most}"),
        None => String::from_str(alloc, "any number"),
    }
}

// What entering a list, going on in it and leaving it cost. `Err`: memory.
fn cost_words(alloc: Global, profile: Profile) -> Result<Vec<u8>, AllocError>
    ensures { IfOk result (λ words. words.items ≡ cost_words profile) }
{
    let entering = bound_words(alloc, larger(profile.lead, profile.none))?;
    let going_on = bound_words(alloc, profile.between)?;
    let leaving = bound_words(alloc, profile.trail)?;
    let mut words = Vec::from_slice(alloc, b": entering ")?;
    words.extend_from_slice(entering.as_bytes())?;
    words.extend_from_slice(b", going on ")?;
    words.extend_from_slice(going_on.as_bytes())?;
    words.extend_from_slice(b", leaving ")?;
    words.extend_from_slice(leaving.as_bytes())?;
    words.push(b'\n')?;
    Ok(words)
}

// Adds that an element stands once, where it does.
fn push_once(line: &mut Vec<u8>, once: bool) -> Result<(), AllocError>
    ensures { OnOk result (line.new.items ≡ line.old.items ++ once_words once) }
{
    if once {
        line.extend_from_slice(b", which has no key of its own and stands once")?;
    }
    Ok(())
}

// The blanks before a line, two for each list around.
fn indent(alloc: Global, depth: usize) -> Result<Vec<u8>, AllocError>
    ensures { IfOk result (λ blanks. blanks.items ≡ indent depth) }
{
    let mut blanks = Vec::new(alloc);
    for around in 0..depth {
        blanks.extend_from_slice(b"  ")?;
    }
    Ok(blanks)
}

// Adds the line of a reason, where some number isn't promised.
fn push_reason(
    lines: &mut Vec<u8>,
    blanks: &[u8],
    most: Option<u64>,
    reason: &[u8],
) -> Result<(), AllocError>
    ensures { OnOk result (lines.new.items ≡ lines.old.items ++ reason_line blanks.now most reason.now) }
{
    if most.is_some() {
        return Ok(());
    }
    lines.extend_from_slice(blanks)?;
    lines.extend_from_slice(b"    since ")?;
    lines.extend_from_slice(reason)?;
    lines.push(b'\n')?;
    Ok(())
}

/// The lines of the list of an element of a label that stands so: what steps in it cost, and a reason where some number isn't promised. `Err`: memory.
pub fn list_lines(
    alloc: Global,
    standing: Standing,
    label: &Label,
    profile: Profile,
    reason: &[u8],
) -> Result<Vec<u8>, AllocError>
    ensures { IfOk result (λ lines. lines.items ≡ list_lines standing label.now profile reason.now) }
{
    let blanks = indent(alloc, standing.depth)?;
    let mut lines = Vec::from_slice(alloc, &blanks)?;
    lines.extend_from_slice(b"  the list of <")?;
    lines.extend_from_slice(label.bytes())?;
    lines.push(b'>')?;
    push_once(&mut lines, standing.once)?;
    let costs = cost_words(alloc, profile)?;
    lines.extend_from_slice(&costs)?;
    push_reason(&mut lines, &blanks, profile.greatest(), reason)?;
    Ok(lines)
}
