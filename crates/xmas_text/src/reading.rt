// Reading the rule that a text spells.
ghost use Rattle.std.specs.Prelude.{IfOk, IsUtf8};
ghost use Rattle.xmas_text.specs.Named.{IsNamedTree};
ghost use Rattle.xmas_text.specs.Parsed.{RuleForm};
ghost use Rattle.xmas_text.specs.Results.{Answers, SpellsWithin, IsTree, form_of};

use crate::TextFault;
use crate::build::build_rule;
use crate::rule::RuleText;
use crate::scan::scan_rule;
use std::alloc::Global;
use std::str;

// Reads a text that is UTF-8.
fn read(alloc: Global, text: &[u8]) -> Result<RuleText, TextFault>
    requires { IsUtf8 text.now }
    ensures { Answers text.now result }
{
    scan_rule(text)?;
    Ok(build_rule(alloc, text)?)
}

/// The rule that a text spells, with the place of each of its parts.
///
/// # Errors
///
/// Places count bytes from the beginning of the text. Of the causes that a text has, the first of these is answered:
///
/// - `NotUtf8` with the length of the longest prefix that is UTF-8.
/// - `Unexpected` with the first byte with which no rule's text goes on.
/// - `EndsEarly` where a rule's text goes on from the end.
/// - `TooDeep` where an element stands inside 20 others.
///
/// `OutOfMemory` can come with any text. Tags whose names differ are no fault here, and in place of a path that passes its limits
/// stands the limit that it passes.
pub fn parse_rule(alloc: Global, text: &[u8]) -> Result<RuleText, TextFault>
    // The answer is that of the text: the tree that it spells, or why none is read.
    ensures answers { Answers text.now result }

    // What is spelled within the limit is read, unless memory runs out.
    ensures only { (v : RuleForm) → IsUtf8 text.now → SpellsWithin text.now v → IsTree result v }

    // Names, variables and paths of the tree are as the grammar has them.
    ensures named { IfOk result (λ t. IsNamedTree (form_of t)) }
{
    match str::from_utf8(text) {
        Ok(_) => read(alloc, text),
        Err(error) => Err(TextFault::NotUtf8(error.valid_up_to())),
    }
}
