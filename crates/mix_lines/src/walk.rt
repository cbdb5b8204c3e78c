// The steps of a script, answered on the document of one source.
ghost use Rattle.std.specs.Prelude.{◌≡◌, ◌<◌, ◌≤◌, true, length, map};
ghost use Rattle.mix_io.specs.Views.{SinkView};
ghost use Rattle.mix_tree.specs.Forest.{LabelledTree, alone};
ghost use Rattle.lxp_core.specs.View.{View, document};
ghost use Rattle.mix_script.specs.Steps.{ArePlain};
ghost use Rattle.mix_script.specs.Transcript.{unnamed};
ghost use Rattle.mix_session.specs.Meaning.{Course};
ghost use Rattle.mix_session.specs.Walks.{source_course};
ghost use Rattle.mix_lines.specs.Ends.{Ends, IsInputless};
ghost use Rattle.mix_lines.specs.Heard.{step};
ghost use Rattle.mix_lines.specs.Told.{EndsOn};

use crate::LinesFault;
use crate::lines::{Asking, answer_all};
use crate::steps::Steps;
use lxp_core::Sources;
use mix_io::Sink;
use mix_script::Step;
use mix_tree::Label;
use std::alloc::Global;
use tree_buffer::Buffer;

/// Answers steps on the document of one source, each by a line in one write; `names` has the sources' names. True: a fault
/// line was written. No step writes an identifier down or follows one. The document is asked for piece by piece, as the steps need
/// it (docs/MEANING.md, "Lines that answer what is heard").
///
/// `SinkFailed`: the sink failed. After either error whole lines were written and at most a prefix of the next.
pub fn walk_lines<S: Sources, K: Sink>(
    alloc: Global,
    s: &mut S,
    number: u32,
    steps: &[Step],
    names: &[Label],
    out: &mut K,
) -> Result<bool, LinesFault>
    requires source { number < (S.view s.old).count }
    requires names { length names.now ≡ (S.view s.old).count }
    requires plain { ArePlain steps.now }
    ensures came { S.came_from s.old s.new }
    ensures ends { let c = source_course (S.view s.old) number in
        Ends c (S.view s.old) (S.view s.new) names.now (map step steps.now) (K.view out.old) (K.view out.new) result }
    ensures inputless { IsInputless result }
    ensures told { (t : LabelledTree) → (S.view s.old).told number ≡ true → document (S.view s.old) number ≡ alone t
        → EndsOn true (source_course (S.view s.old) number).NamesAt (unnamed t) names.now (map step steps.now) (K.view out.old).written
        (K.view out.new).written result }
    ensures count { (K.view out.old).faults ≤ (K.view out.new).faults }
{
    let buffer = Buffer::open(alloc, s, number)?;
    let requests = Steps::new(steps);
    let asking = Asking {
        walker: buffer,
        requests,
        names,
    };
    answer_all(alloc, s, asking, &mut (), out)
}
