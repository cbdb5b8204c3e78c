// The lines of a plan's text that have operators.
ghost use Rattle.std.specs.Prelude.{◌≡◌, IfOk, map, take};
ghost use Rattle.plan_read.specs.Lines.{is_class_line, line_of, lines_from, operator_lines, without_class};
ghost use Rattle.mix_words.specs.Lines.{lines_of};

use mix_words::lines::{cut_lines, is_passed_over};
use std::alloc::{AllocError, Global};

/// A line with its number, from 1.
#[derive(Clone, Copy)]
pub struct PlanLine<'a> {
    pub number: usize,
    pub text: &'a [u8],
}

// Whether a line begins with the word class and a blank.
fn is_class_line(line: &[u8]) -> bool
    ensures { result ≡ is_class_line line.now }
{
    let prefix = match line.get(..6) {
        Some(prefix) => prefix,
        None => line,
    };
    *prefix == *b"class ".as_slice()
}

// The lines that aren't passed over.
fn kept_lines(alloc: Global, text: &[u8]) -> Result<Vec<PlanLine<'_>>, AllocError>
    ensures { IfOk result (λ lines. map line_of lines.items ≡ lines_from 1 (lines_of text.now)) }
{
    let lines = cut_lines(alloc, text)?;
    let mut kept = Vec::new(alloc);
    'lines: for (before, line) in lines.iter().enumerate() {
        if !is_passed_over(line) {
            kept.push(PlanLine {
                number: before + 1,
                text: line,
            })?;
        }
    }
    Ok(kept)
}

// How many lines there are without a class line at the end.
fn count_kept(lines: &[PlanLine<'_>]) -> usize
    ensures { take result (map line_of lines.now) ≡ without_class (map line_of lines.now) }
{
    if lines.is_empty() {
        return 0;
    }
    let last = lines.len() - 1;
    if is_class_line(lines[last].text) {
        last
    } else {
        lines.len()
    }
}

/// The lines of a text that have operators: those that aren't passed over, without a class line at the end.
pub fn operator_lines(alloc: Global, text: &[u8]) -> Result<Vec<PlanLine<'_>>, AllocError>
    ensures { IfOk result (λ lines. map line_of lines.items ≡ operator_lines text.now) }
{
    let mut lines = kept_lines(alloc, text)?;
    let count = count_kept(&lines);
    lines.truncate(count);
    Ok(lines)
}
