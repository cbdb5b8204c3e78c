// The steps of a script, asked for one after another.
ghost use Rattle.std.specs.Prelude.{◌≡◌};

use crate::requests::{Request, Requests};
use mix_io::TakeFault;
use mix_script::Step;
use std::alloc::Global;

/// The steps of a script, of which the first ones were asked for.
#[derive(Clone, Copy)]
pub struct Steps<'a> {
    steps: &'a [Step],
    asked: usize,
}

impl<'a> Steps<'a> {
    /// The steps of a script of which none was asked for.
    pub fn new(steps: &'a [Step]) -> Steps<'a>
        ensures steps { result.steps.now ≡ steps.now }
        ensures none { result.asked ≡ 0 }
    {
        Steps { steps, asked: 0 }
    }
}

// They need no input.
impl Requests<()> for Steps<'_> {
    ghost use Rattle.mix_lines.specs.Steps.{AreAsked, IsNext, IsWithin, asked_by, next_after, next_same, steps_left};

    ghost IsReady = { λ r x. IsWithin r };

    ghost come = { λ r x r' x' heard. AreAsked r r' heard };

    ghost moved = { λ r x r' x' result. IsNext r r' result };

    ghost asks = { asked_by };

    ghost left = { λ r x. steps_left r };

    fn next(&mut self, _: Global, _: &mut ()) -> Result<bool, TakeFault> {
        if self.asked == self.steps.len() {
            return Ok(false);
        }
        self.asked += 1;
        Ok(true)
    }

    fn current(&self) -> Request<'_> {
        match self.asked.checked_sub(1) {
            None => Request::Passed,
            Some(at) => match self.steps.get(at) {
                None => Request::Passed,
                Some(step) => Request::Step(step),
            },
        }
    }

    ghost same = { λ r x. next_same r };

    ghost after = { λ r x r1 x1 r2 x2 heard come ready moved. next_after r r1 r2 heard come moved };
}
