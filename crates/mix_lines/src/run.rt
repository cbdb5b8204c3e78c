// The steps of a script, answered on the document of a plan.
ghost use Rattle.std.specs.Prelude.{◌≡◌, ◌≤◌, length, map};
ghost use Rattle.mix_io.specs.Views.{SinkView};
ghost use Rattle.lxp_core.specs.View.{View};
ghost use Rattle.lazy_value.specs.Named as mediator;
ghost use Rattle.mix_script.specs.Transcript.{Finished, IsRight};
ghost use Rattle.mix_session.specs.Meaning.{Course};
ghost use Rattle.mix_session.specs.Stepped.{LetsAll};
ghost use Rattle.mix_session.specs.Walks.{plan_course};
ghost use Rattle.mix_lines.specs.Ends.{Ends, IsInputless};
ghost use Rattle.mix_lines.specs.Heard.{step};
ghost use Rattle.mix_lines.specs.Told.{EndsOn};

use crate::LinesFault;
use crate::lines::{Asking, answer_all};
use crate::steps::Steps;
use lazy_value::Mediator;
use lxp_core::Sources;
use mix_io::Sink;
use mix_script::Step;
use mix_tree::Label;
use std::alloc::Global;

/// Answers steps on the document of a mediator's plan, each by a line in one write; `names` has the sources' names by their
/// numbers. True: a fault line was written. The sources are asked piece by piece, as the steps need it (docs/MEANING.md,
/// "Lines that answer what is heard").
///
/// `SinkFailed`: the sink failed. After either error whole lines were written and at most a prefix of the next.
pub fn run_lines<S: Sources, K: Sink>(
    alloc: Global,
    s: &mut S,
    m: Mediator,
    steps: &[Step],
    names: &[Label],
    out: &mut K,
) -> Result<bool, LinesFault>
    requires mediator { mediator.IsMediatorOf (S.view s.old) m }
    requires names { length names.now ≡ (S.view s.old).count }
    requires lets { LetsAll (plan_course (mediator.state_of (S.view s.old) m)) steps.now }
    ensures came { S.came_from s.old s.new }
    ensures ends { let c = plan_course (mediator.state_of (S.view s.old) m) in
        Ends c (S.view s.old) (S.view s.new) names.now (map step steps.now) (K.view out.old) (K.view out.new) result }
    ensures inputless { IsInputless result }
    ensures told { let c = plan_course (mediator.state_of (S.view s.old) m) in (f : Finished) → c.IsDocument f.tree → IsRight c.NamesAt f steps.now
        → EndsOn c.roots c.NamesAt f names.now (map step steps.now) (K.view out.old).written (K.view out.new).written result }
    ensures count { (K.view out.old).faults ≤ (K.view out.new).faults }
{
    let requests = Steps::new(steps);
    let asking = Asking {
        walker: m,
        requests,
        names,
    };
    answer_all(alloc, s, asking, &mut (), out)
}
