// The lines of a client, each answered before more of them is taken.
ghost use Rattle.std.specs.Prelude.{◌≡◌, ◌≤◌, length};
ghost use Rattle.mix_io.specs.Input.{InputView};
ghost use Rattle.mix_io.specs.Views.{SinkView};
ghost use Rattle.lxp_core.specs.View.{View};
ghost use Rattle.lazy_value.specs.Named as mediator;
ghost use Rattle.mix_session.specs.Meaning.{Course};
ghost use Rattle.mix_session.specs.Walks.{plan_course};
ghost use Rattle.mix_lines.specs.Talks.{HeardEnds};

use crate::LinesFault;
use crate::input_lines::InputLines;
use crate::lines::{Asking, answer_all};
use lazy_value::Mediator;
use lxp_core::Sources;
use mix_io::{Input, Sink, Streams};
use mix_tree::Label;
use std::alloc::Global;

/// Answers the lines of an input on the document of a mediator's plan, each by one write before more is taken; `names` has the
/// sources' names by their numbers. True: a fault line was written. Lines are those of a script, which may write identifiers down and
/// follow them; one of no form is answered `no form` and changes nothing (docs/FORMATS.md, "Talks").
///
/// `InputFailed`: the input failed; all whole lines that were taken of it before are answered. `SinkFailed`: the sink failed. After it, and
/// where memory ran out, whole lines were written and at most a prefix of the next.
pub fn talk_lines<S: Sources, I: Input, K: Sink>(
    alloc: Global,
    s: &mut S,
    m: Mediator,
    names: &[Label],
    streams: &mut Streams<I, K>,
) -> Result<bool, LinesFault>
    requires mediator { mediator.IsMediatorOf (S.view s.old) m }
    requires names { length names.now ≡ (S.view s.old).count }
    requires lets { let c = plan_course (mediator.state_of (S.view s.old) m) in c.Tells × c.Follows }
    ensures came { S.came_from s.old s.new }
    ensures ends { let c = plan_course (mediator.state_of (S.view s.old) m) in
        HeardEnds c (S.view s.old) (S.view s.new) names.now (I.view streams.old.input) (I.view streams.new.input)
        (K.view streams.old.out) (K.view streams.new.out) result }
    ensures input { (I.view streams.old.input).faults ≤ (I.view streams.new.input).faults }
    ensures count { (K.view streams.old.out).faults ≤ (K.view streams.new.out).faults }
{
    let requests = InputLines::new(alloc)?;
    let asking = Asking {
        walker: m,
        requests,
        names,
    };
    answer_all(alloc, s, asking, &mut streams.input, &mut streams.out)
}
