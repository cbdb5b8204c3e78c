// Scripts are read line by line; a line that is not passed over is of one form.
ghost use Rattle.std.specs.Prelude.{◌≡◌, ◌++◌, ℕ, List, Ok, Err, Some, None, IfOk, OnOk, IsErrOf};
ghost use Rattle.mix_script.specs.declared.script.ScriptFault.TheVariants.{OutOfMemory};
ghost use Rattle.mix_script.specs.declared.step.Step.{Step};
ghost use Rattle.mix_script.specs.declared.step.Forms.TheVariants.{Plain, WithIds};
ghost use Rattle.mix_script.specs.Steps.{ArePlain, line_steps, steps_of, steps_read};

use crate::line::line_step;
use crate::{Forms, LineRead, Step};
use mix_words::lines::{cut_lines, is_passed_over};
use std::alloc::{AllocError, AllocFailed, Global};
use thiserror::Error;

/// Why a script was not read.
#[derive(Clone, Copy, Debug, PartialEq, Eq, Error)]
pub enum ScriptFault {
    /// The number of the first line that fits no form. Lines count from 1, those that are passed over too.
    #[error("no form fits line {0}")]
    Line(usize),
    #[error("memory ran out")]
    OutOfMemory,
}

impl From<AllocError> for ScriptFault {
    ghost from_gives = { λ _ e. e ≡ OutOfMemory };

    fn from(_: AllocError) -> Self {
        ScriptFault::OutOfMemory
    }
}

impl<T: Drop> From<AllocFailed<T>> for ScriptFault {
    ghost from_gives = { λ _ e. e ≡ OutOfMemory };

    fn from(_: AllocFailed<T>) -> Self {
        ScriptFault::OutOfMemory
    }
}

/// What a line of a script comes to, by the forms that it may have. The line is given without its LF, and without the CR right before that.
pub fn read_line(alloc: Global, line: &[u8], forms: Forms) -> Result<LineRead, AllocError>
    ensures { IfOk result (λ read. line_steps forms line.now ≡ steps_read read) }
{
    if is_passed_over(line) {
        return Ok(LineRead::Passed);
    }
    match line_step(alloc, line, forms)? {
        Some(step) => Ok(LineRead::Step(step)),
        None => Ok(LineRead::NoForm),
    }
}

// Adds the step of a line, unless the line is passed over.
fn push_line(
    alloc: Global,
    steps: &mut Vec<Step>,
    line: &[u8],
    number: usize,
    forms: Forms,
) -> Result<(), ScriptFault>
    ensures ok { OnOk result ((new : List Step) × (line_steps forms line.now ≡ Some new) × (steps.new.items ≡ steps.old.items ++ new)) }
    ensures line { (n : ℕ) → IsErrOf result (ScriptFault.Line n) → (line_steps forms line.now ≡ None) × (n ≡ number) }
{
    match read_line(alloc, line, forms)? {
        LineRead::Passed => Ok(()),
        LineRead::Step(step) => {
            steps.push(step)?;
            Ok(())
        }
        LineRead::NoForm => Err(ScriptFault::Line(number)),
    }
}

// The steps of a script whose lines may have these forms.
fn read_steps(alloc: Global, text: &[u8], forms: Forms) -> Result<Vec<Step>, ScriptFault>
    ensures steps { IfOk result (λ steps. steps_of forms text.now ≡ Ok steps.items) }
    ensures line { (n : ℕ) → IsErrOf result (ScriptFault.Line n) → steps_of forms text.now ≡ Err n }
{
    let lines = cut_lines(alloc, text)?;
    let mut steps = Vec::new(alloc);
    for (before, line) in lines.iter().enumerate() {
        push_line(alloc, &mut steps, line, before + 1, forms)?;
    }
    Ok(steps)
}

/// The steps of a script, in order, of which none writes an identifier down or follows one. A line that is passed over has none; a
/// line of no form refuses the script.
pub fn read_script(alloc: Global, text: &[u8]) -> Result<Vec<Step>, ScriptFault>
    ensures steps { IfOk result (λ steps. steps_of Plain text.now ≡ Ok steps.items) }
    ensures plain { IfOk result (λ steps. ArePlain steps.items) }
    ensures line { (n : ℕ) → IsErrOf result (ScriptFault.Line n) → steps_of Plain text.now ≡ Err n }
{
    read_steps(alloc, text, Forms::Plain)
}

/// The steps of a script, in order, which may write identifiers down and follow them: `id Y` and `X = at TEXT` are forms of lines
/// too (docs/FORMATS.md, "Scripts"). A line that is passed over has none; a line of no form refuses the script.
pub fn read_script_ids(alloc: Global, text: &[u8]) -> Result<Vec<Step>, ScriptFault>
    ensures steps { IfOk result (λ steps. steps_of WithIds text.now ≡ Ok steps.items) }
    ensures line { (n : ℕ) → IsErrOf result (ScriptFault.Line n) → steps_of WithIds text.now ≡ Err n }
{
    read_steps(alloc, text, Forms::WithIds)
}
