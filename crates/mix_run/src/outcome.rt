// What a command that was done came to.
ghost use Rattle.std.specs.Prelude.{◌≡◌};
ghost use Rattle.mix_lines.specs.Ends.{IsInputless};
ghost use Rattle.mix_run.specs.Stops.{IsEndOf, outcome_of};

use mix_lines::LinesFault;
use mix_place::Stop;

/// What a command that was done came to.
#[derive(Clone, Copy, Debug, PartialEq, Eq)]
pub enum Outcome {
    /// No line is a fault line.
    Answers,
    /// Some line is a fault line.
    Faults,
}

/// The outcome of a run whose lines came to their end, by whether one of them is a fault line.
pub fn outcome_of(marked: bool) -> Outcome
    ensures { result ≡ outcome_of marked }
{
    if marked {
        Outcome::Faults
    } else {
        Outcome::Answers
    }
}

/// What a run comes to whose lines ended so: its outcome, or the stop that a fault of them is. Its lines need no input.
pub fn end_of(end: Result<bool, LinesFault>) -> Result<Outcome, Stop>
    requires { IsInputless end }
    ensures { IsEndOf end result }
{
    match end {
        Ok(marked) => Ok(outcome_of(marked)),
        Err(LinesFault::InputFailed) => unreachable!(),
        Err(LinesFault::SinkFailed) => Err(Stop::SinkFailed),
        Err(LinesFault::OutOfMemory) => Err(Stop::OutOfMemory),
    }
}
