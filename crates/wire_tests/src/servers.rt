// Servers and links over a source of one leaf.
use crate::leaf::{Leaf, ROOT};
use lxp_core::HoleId;
use lxp_wire::{FixedLink, Link, LinkFault, MemLink, Server, pieces_are_one_stream};
use std::alloc::Global;
use std::test::Fail;
use wire_text::{Request, write_request};

// Requests for the number of sources, a root, the leaf, a hole that isn't known, and a source that isn't there.
fn requests(alloc: Global) -> Result<Vec<u8>, Fail> {
    let mut text = vec![in alloc; 0, 1, 0, 0, 0, 0]?;
    for (source, word) in [(0, 7), (0, 8), (1, 7)] {
        let hole = HoleId {
            words: [0, 0, word],
        };
        let request = Request::Fill { source, hole };
        text.extend_from_slice(&write_request(alloc, &request)?)?;
    }
    Ok(text)
}

// The replies to them.
fn replies(alloc: Global) -> Result<Vec<u8>, Fail> {
    let mut text = vec![in alloc; 0x80, 0, 0, 0, 1, 0x81]?;
    text.extend_from_slice(&[0; 23])?;
    text.push(7)?;
    text.extend_from_slice(&[0; 15])?;
    text.extend_from_slice(&[
        1, 0x82, 0, 0, 0, 1, 0, 0, 0, 0, 1, b'c', 0, 0, 0, 0, 0x84, 0x86,
    ])?;
    Ok(text)
}

#[test]
fn a_stream_is_answered_the_same_in_any_two_pieces(rt: HostRuntime) -> Result<(), Fail> {
    let alloc = rt.alloc();
    pieces_are_one_stream();
    let text = requests(alloc)?;
    let wanted = replies(alloc)?;
    for cut in 0..=text.len() {
        let mut server = Server::new(Leaf { fills: 0 });
        let mut found = server.feed(alloc, &text[..cut])?.replies;
        found.extend_from_slice(&server.feed(alloc, &text[cut..])?.replies)?;
        assert_eq!(rt; found.as_slice(), wanted.as_slice());
        assert!(rt; server.whole());
        assert_eq!(rt; server.into_sources().fills, 1);
    }
    Ok(())
}

#[test]
fn nothing_is_answered_after_a_bad_tag(rt: HostRuntime) -> Result<(), Fail> {
    let alloc = rt.alloc();
    let mut server = Server::new(Leaf { fills: 0 });
    let fed = server.feed(alloc, &[0, 7, 0])?;
    assert_eq!(rt; fed.replies.as_slice(), [0x80, 0, 0, 0, 1].as_slice());
    assert_eq!(rt; fed.bad, Some(1));
    let fed = server.feed(alloc, &[0])?;
    assert_eq!(rt; fed.replies.len(), 0);
    assert_eq!(rt; fed.bad, Some(1));
    Ok(())
}

// The bytes of a reply that a link gives to the request for the number of sources; none, where it fails.
fn asked<L: Link>(alloc: Global, link: &mut L) -> Result<Option<Vec<u8>>, Fail> {
    let request = write_request(alloc, &Request::Count)?;
    match link.ask(alloc, &request) {
        Ok(reply) => Ok(Some(reply)),
        Err(LinkFault::Failed) => Ok(None),
        Err(LinkFault::OutOfMemory) => Err("memory ran out".into()),
    }
}

#[test]
fn a_link_to_memory_replies_as_its_sources(rt: HostRuntime) -> Result<(), Fail> {
    let alloc = rt.alloc();
    let mut link = MemLink::new(Leaf { fills: 0 });
    let reply = asked(alloc, &mut link)?.ok_or("it never fails")?;
    assert_eq!(rt; reply.as_slice(), [0x80, 0, 0, 0, 1].as_slice());
    assert_eq!(rt; link.into_sources().fills, 0);
    Ok(())
}

#[test]
fn a_fixed_link_fails_when_its_replies_are_out(rt: HostRuntime) -> Result<(), Fail> {
    let alloc = rt.alloc();
    let mut replies = Vec::new(alloc);
    replies.push(vec![in alloc; 0x83]?)?;
    let mut link = FixedLink::new(replies);
    let reply = asked(alloc, &mut link)?.ok_or("one reply is left")?;
    assert_eq!(rt; reply.as_slice(), [0x83].as_slice());
    assert!(rt; asked(alloc, &mut link)?.is_none());
    Ok(())
}
