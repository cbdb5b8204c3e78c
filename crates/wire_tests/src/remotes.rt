// Sources after a link: opened, filled and refused.
use crate::leaf::{Leaf, ROOT};
use lxp_core::{HoleId, SourceFault, Sources};
use lxp_remote::{Broken, Remote, RemoteFault, WireFault};
use lxp_wire::{FixedLink, Link, MemLink};
use std::alloc::{AllocError, Global};
use std::test::Fail;

// How many trees a fill of the first source gives, or why it gives none; `None` where there is no source.
fn filled<L: Link>(
    alloc: Global,
    remote: &mut Remote<L>,
    words: [u64; 3],
) -> Option<Result<usize, SourceFault>> {
    if remote.count() == 0 {
        return None;
    }
    match remote.fill(alloc, 0, HoleId { words }) {
        Ok(list) => Some(Ok(list.len())),
        Err(fault) => Some(Err(fault)),
    }
}

// Why the first source failed last.
fn last<L: Link>(remote: &Remote<L>) -> Option<WireFault> {
    if remote.count() == 0 {
        return None;
    }
    remote.last(0)
}

#[test]
fn sources_in_memory_are_the_same_after_a_link(rt: HostRuntime) -> Result<(), Fail> {
    let alloc = rt.alloc();
    let mut remote = match Remote::open(alloc, MemLink::new(Leaf { fills: 0 })) {
        Ok(remote) => remote,
        Err(_) => return Err("it is opened".into()),
    };
    assert_eq!(rt; remote.count(), 1);
    if remote.count() == 1 {
        assert_eq!(rt; remote.get_root(0), HoleId { words: ROOT });
    }
    assert_eq!(rt; filled(alloc, &mut remote, ROOT), Some(Ok(1)));
    assert_eq!(rt;
        filled(alloc, &mut remote, [0, 0, 8]),
        Some(Err(SourceFault::UnknownHole))
    );
    assert_eq!(rt; last(&remote), None);
    assert_eq!(rt; remote.into_link().into_sources().fills, 1);
    Ok(())
}

// A link that gives the first replies, and then these bytes.
fn replying(alloc: Global, first: &[&[u8]], text: &[u8]) -> Result<FixedLink, AllocError> {
    let mut replies = Vec::new(alloc);
    for reply in first {
        replies.push(Vec::from_slice(alloc, reply)?)?;
    }
    replies.push(Vec::from_slice(alloc, text)?)?;
    Ok(FixedLink::new(replies))
}

// Why the sources of a link are not opened.
fn refusal(alloc: Global, link: FixedLink) -> Option<RemoteFault> {
    match Remote::open(alloc, link) {
        Ok(_) => None,
        Err(refused) => Some(refused.fault),
    }
}

const ONE: [u8; 5] = [0x80, 0, 0, 0, 1];

#[test]
fn a_reply_that_opens_nothing_is_named(rt: HostRuntime) -> Result<(), Fail> {
    let alloc = rt.alloc();
    let rows: [(&[u8], RemoteFault); 6] = [
        (
            &[0x80, 0],
            RemoteFault::Wire(WireFault::BadFragment(Broken::NotAReply)),
        ),
        (
            &[0x82, 0, 0, 0, 0],
            RemoteFault::Wire(WireFault::BadFragment(Broken::WrongReply)),
        ),
        (&[0x83], RemoteFault::Wire(WireFault::PeerFailed)),
        (&[0x84], RemoteFault::Wire(WireFault::PeerUnknown)),
        (&[0x85], RemoteFault::OutOfMemory),
        (&[0x86], RemoteFault::Wire(WireFault::PeerNoSource)),
    ];
    for (text, wanted) in rows {
        assert_eq!(rt; refusal(alloc, replying(alloc, &[], text)?), Some(wanted));
        assert_eq!(rt;
            refusal(alloc, replying(alloc, &[ONE.as_slice()], text)?),
            Some(wanted)
        );
    }
    let silent = replying(alloc, &[], &ONE)?;
    assert_eq!(rt;
        refusal(alloc, silent),
        Some(RemoteFault::Wire(WireFault::Link))
    );
    Ok(())
}

// Why the only source of a link fails, which has the root of `ROOT` with weight 9 and gives these bytes for it.
fn failure(alloc: Global, text: &[u8]) -> Result<Option<WireFault>, Fail> {
    let mut root = vec![in alloc; 0x81]?;
    root.extend_from_slice(&[0; 23])?;
    root.push(7)?;
    root.extend_from_slice(&[0; 15])?;
    root.push(9)?;
    let mut remote = match Remote::open(
        alloc,
        replying(alloc, &[ONE.as_slice(), root.as_slice()], text)?,
    ) {
        Ok(remote) => remote,
        Err(_) => return Err("it is opened".into()),
    };
    let answer = filled(alloc, &mut remote, ROOT);
    match last(&remote) {
        Some(fault) if answer == Some(Err(SourceFault::Failed)) => Ok(Some(fault)),
        _ => Ok(None),
    }
}

// The bytes of a hole of this word and weight, as a tree.
fn hole_text(text: &mut Vec<u8>, word: u8, weight: u8) -> Result<(), AllocError> {
    text.push(1)?;
    text.extend_from_slice(&[0; 23])?;
    text.push(word)?;
    text.extend_from_slice(&[0; 15])?;
    text.push(weight)?;
    Ok(())
}

// A list of two holes of this weight each, after these bytes of a list.
fn two_holes(alloc: Global, before: &[u8], weight: u8) -> Result<Vec<u8>, Fail> {
    let mut text = Vec::from_slice(alloc, before)?;
    hole_text(&mut text, 1, weight)?;
    hole_text(&mut text, 2, weight)?;
    Ok(text)
}

#[test]
fn a_reply_that_breaks_a_rule_fails_the_source(rt: HostRuntime) -> Result<(), Fail> {
    let alloc = rt.alloc();
    let mut deep = vec![in alloc; 0x82, 0, 0, 0, 1]?;
    for _ in 0..200 {
        deep.extend_from_slice(&[0, 0, 0, 0, 0, 0, 0, 0, 1])?;
    }
    deep.extend_from_slice(&[0, 0, 0, 0, 0, 0, 0, 0, 0])?;
    let mut heavy = vec![in alloc; 0x82, 0, 0, 0, 2, 0, 0, 0, 0, 1, b'c', 0, 0, 0, 0]?;
    hole_text(&mut heavy, 1, 9)?;
    let mut changed = vec![in alloc; 0x82, 0, 0, 0, 2, 0, 0, 0, 0, 1, b'c', 0, 0, 0, 0]?;
    hole_text(&mut changed, 7, 1)?;
    let holes = two_holes(alloc, &[0x82, 0, 0, 0, 2], 1)?;
    let three = [0x82, 0, 0, 0, 3, 0, 0, 0, 0, 1, b'c', 0, 0, 0, 0];
    let adjacent = two_holes(alloc, &three, 1)?;
    let one = [0x82, 0, 0, 0, 1, 0, 0, 0, 0, 1, b'c', 0, 0, 0, 2];
    let below = two_holes(alloc, &one, 1)?;
    let rows: [(&[u8], Broken); 9] = [
        ([0x82].as_slice(), Broken::NotAReply),
        ([0x87].as_slice(), Broken::NotAReply),
        (ONE.as_slice(), Broken::WrongReply),
        (deep.as_slice(), Broken::TooDeep),
        (holes.as_slice(), Broken::HolesOnly),
        (adjacent.as_slice(), Broken::AdjacentHoles),
        (below.as_slice(), Broken::AdjacentHoles),
        (heavy.as_slice(), Broken::Weight),
        (changed.as_slice(), Broken::WeightChanged),
    ];
    for (text, broken) in rows {
        assert_eq!(rt; failure(alloc, text)?, Some(WireFault::BadFragment(broken)));
    }
    Ok(())
}

#[test]
fn a_peer_that_refuses_a_fill_fails_the_source(rt: HostRuntime) -> Result<(), Fail> {
    let alloc = rt.alloc();
    let leaf: [u8; 15] = [0x82, 0, 0, 0, 1, 0, 0, 0, 0, 1, b'c', 0, 0, 0, 0];
    let rows: [(&[u8], Option<WireFault>); 6] = [
        (&[0x82, 0, 0, 0, 0], None),
        (leaf.as_slice(), None),
        (&[0x83], Some(WireFault::PeerFailed)),
        (&[0x84], Some(WireFault::PeerUnknown)),
        (&[0x85], None),
        (&[0x86], Some(WireFault::PeerNoSource)),
    ];
    for (text, wanted) in rows {
        assert_eq!(rt; failure(alloc, text)?, wanted);
    }
    Ok(())
}
