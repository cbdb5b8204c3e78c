// Answering one request.
ghost use Rattle.std.specs.Prelude.{◌≡◌, ◌≤◌, ◌<◌, ◌+◌, OnOk};
ghost use Rattle.wire_text.specs.declared.request.Request.TheVariants.{Root, Fill};
ghost use Rattle.lxp_wire.specs.Answer.{HasAnswered, fills_of};

use crate::serving::{push_open_list, whole_hole};
use lxp_core::{HoleId, SourceFault, Weighed};
use std::alloc::{AllocError, Global};
use wire_text::{Request, push_hole, push_u32};

// Writes the reply to a request for a root after what `out` holds.
fn answer_root<S: Weighed>(out: &mut Vec<u8>, sources: &S, s: u32) -> Result<(), AllocError>
    ensures { OnOk result (HasAnswered (S.view sources.now) (S.view sources.now) (Root s) out.old.items out.new.items) }
{
    if s >= sources.count() {
        out.push(0x86)?;
        return Ok(());
    }
    let id = sources.get_root(s);
    match sources.weight(s, id) {
        Some(weight) => {
            out.push(0x81)?;
            push_hole(out, whole_hole(id, weight))?;
        }
        None => unreachable!(),
    }
    Ok(())
}

// Writes the reply to a request for a list after what `out` holds.
fn answer_fill<S: Weighed>(
    alloc: Global,
    out: &mut Vec<u8>,
    sources: &mut S,
    source: u32,
    hole: HoleId,
) -> Result<(), AllocError>
    ensures came { S.came_from sources.old sources.new }
    ensures fills { (S.view sources.new).fills ≤ (S.view sources.old).fills + 1 }
    ensures answered { OnOk result (HasAnswered (S.view sources.old) (S.view sources.new) (Fill source hole) out.old.items out.new.items) }
{
    if source >= sources.count() {
        out.push(0x86)?;
        return Ok(());
    }
    match sources.fill(alloc, source, hole) {
        Ok(list) => {
            out.push(0x82)?;
            push_open_list(out, sources, source, &list)?;
        }
        Err(SourceFault::Failed) => out.push(0x83)?,
        Err(SourceFault::UnknownHole) => out.push(0x84)?,
        Err(SourceFault::OutOfMemory) => out.push(0x85)?,
    }
    Ok(())
}

/// Writes the reply to a request after what `out` holds.
pub fn answer<S: Weighed>(
    alloc: Global,
    out: &mut Vec<u8>,
    sources: &mut S,
    request: Request,
) -> Result<(), AllocError>
    ensures came { S.came_from sources.old sources.new }
    ensures fills { (S.view sources.new).fills ≤ (S.view sources.old).fills + fills_of request }
    ensures answered { OnOk result (HasAnswered (S.view sources.old) (S.view sources.new) request out.old.items out.new.items) }
{
    match request {
        Request::Count => {
            out.push(0x80)?;
            push_u32(out, sources.count())?;
        }
        Request::Root(s) => answer_root(out, sources, s)?,
        Request::Fill { source, hole } => answer_fill(alloc, out, sources, source, hole)?,
    }
    Ok(())
}
