// What calls leave together, and what they leave of buffers that they don't take.
ghost use Rattle.tree_buffer.specs.Law.{RanSame, RanTwice, KeepsBuffers, SpotsAreOne};

use lxp_core::Sources;

/// What a call leaves of the sources and their buffers is left where there is no call.
pub fn no_call_runs<S: Sources>()
    ensures { RanSame S.view S.came_from }
{}

/// Two calls, one after another, leave what one call leaves.
pub fn two_calls_run<S: Sources>()
    ensures { RanTwice S.view S.came_from }
{}

/// Where sources keep what every call keeps, each buffer of theirs that no call takes stays one of theirs and goes on.
pub fn buffers_are_kept()
    ensures { KeepsBuffers }
{}

/// Two spots of one buffer that stand for the same place are the same spot.
pub fn spots_are_one()
    ensures { SpotsAreOne }
{}
