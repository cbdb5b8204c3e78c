// The line of one answer.
ghost use Rattle.std.specs.Prelude.{◌≡◌, ◌≤◌, IfOk, IfErr, length};
ghost use Rattle.mix_io.specs.Views.{SinkView};
ghost use Rattle.mix_script.specs.Answers.{IsNamed};
ghost use Rattle.mix_script.specs.Allowed.{is_fault};
ghost use Rattle.mix_lines.specs.Cuts.{WroteLine, IsStepCut};

use crate::LinesFault;
use mix_io::Sink;
use mix_script::{Answer, Step, usual_line, write_answer};
use mix_tree::Label;
use std::alloc::Global;

// Whether an answer is a fault.
fn marks(answer: &Answer) -> bool
    ensures { result ≡ is_fault answer.now }
{
    match answer {
        Answer::Fault(_) => true,
        Answer::Node
        | Answer::None
        | Answer::Label(_)
        | Answer::Text(_)
        | Answer::NoNode
        | Answer::Id(_)
        | Answer::Foreign => false,
    }
}

/// Writes the line of a step's answer, in one write. Tells whether it is a fault line. `SinkFailed`: the sink failed. After
/// either error a prefix of the line was written, perhaps none of it.
pub fn write_line<K: Sink>(
    alloc: Global,
    step: &Step,
    answer: &Answer,
    sources: &[Label],
    out: &mut K,
) -> Result<bool, LinesFault>
    requires { IsNamed (length sources.now) answer.now }
    ensures line { IfOk result (WroteLine (λ a. a ≡ answer.now) sources.now step.now.client (K.view out.old) (K.view out.new)) }
    ensures cut { IfErr result (IsStepCut (λ a. a ≡ answer.now) sources.now step.now.client (K.view out.old) (K.view out.new)) }
    ensures count { (K.view out.old).faults ≤ (K.view out.new).faults }
{
    if let Some(line) = usual_line(&step.client, answer) {
        out.write(alloc, line)?;
        return Ok(marks(answer));
    }
    let line = write_answer(alloc, step, answer, sources)?;
    out.write(alloc, &line)?;
    Ok(marks(answer))
}
