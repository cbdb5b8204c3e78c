// Replies by their bytes.
use std::alloc::Global;
use std::test::Fail;
use wire_text::{ReplyFault, read_lists_are_small, read_reply, replies_are_apart, write_reply};

// The bytes that a reply has when it was read and written again; none, where the text is no reply.
fn again(alloc: Global, text: &[u8]) -> Result<Option<Vec<u8>>, Fail> {
    let Ok(reply) = read_reply(alloc, text) else {
        return Ok(None);
    };
    read_lists_are_small();
    Ok(Some(write_reply(alloc, &reply)?))
}

fn fault(alloc: Global, text: &[u8]) -> Option<ReplyFault> {
    read_reply(alloc, text).err()
}

// A list of a node, with a leaf and a hole below it.
const LIST: [u8; 68] = [
    0x82, 0, 0, 0, 1, 0, 0, 0, 0, 2, b'a', b'b', 0, 0, 0, 2, 0, 0, 0, 0, 2, 0xC3, 0xA9, 0, 0, 0, 0,
    1, 0, 0, 0, 0, 0, 0, 0, 1, 0, 0, 0, 0, 0, 0, 0, 2, 0, 0, 0, 0, 0, 0, 0, 3, 0, 0, 0, 0, 0, 0, 0,
    0, 0, 0, 0, 0, 0, 0, 0, 9,
];

#[test]
fn each_reply_is_written_as_it_was_read(rt: HostRuntime) -> Result<(), Fail> {
    let alloc = rt.alloc();
    replies_are_apart();
    let rows: [&[u8]; 7] = [
        &[0x80, 0, 0, 0, 1],
        &[0x82, 0, 0, 0, 0],
        &[0x82, 0, 0, 0, 1, 0, 0, 0, 0, 1, b'c', 0, 0, 0, 0],
        &[0x83],
        &[0x84],
        &[0x85],
        &[0x86],
    ];
    for row in rows {
        let text = again(alloc, row)?.ok_or("a row is a reply")?;
        assert_eq!(rt; text.as_slice(), row);
    }
    let text = again(alloc, &LIST)?.ok_or("the list is a reply")?;
    assert_eq!(rt; text.as_slice(), LIST.as_slice());
    Ok(())
}

#[test]
fn a_reply_that_is_cut_ends_too_early(rt: HostRuntime) {
    for len in 0..LIST.len() {
        assert_eq!(rt; fault(rt.alloc(), &LIST[..len]), Some(ReplyFault::Ends));
    }
}

#[test]
fn a_reply_with_another_byte_is_read_as_it_stands_or_refused(rt: HostRuntime) -> Result<(), Fail> {
    let alloc = rt.alloc();
    for at in 0..LIST.len() {
        let mut text = Vec::from_slice(alloc, &LIST)?;
        text[at] = text[at] ^ 0x80;
        match read_reply(alloc, &text) {
            Ok(reply) => {
                read_lists_are_small();
                let same = write_reply(alloc, &reply)?;
                assert_eq!(rt; same.as_slice(), text.as_slice());
            }
            Err(ReplyFault::Unexpected(place)) => assert!(rt; place >= at),
            Err(found) => assert_eq!(rt; found, ReplyFault::Ends),
        }
    }
    Ok(())
}

#[test]
fn faults_name_the_first_wrong_byte(rt: HostRuntime) {
    let alloc = rt.alloc();
    let rows: [(&[u8], ReplyFault); 7] = [
        (&[7], ReplyFault::Unexpected(0)),
        (&[0x83, 0], ReplyFault::Unexpected(1)),
        (&[0x82, 0, 0, 0, 1, 2], ReplyFault::Unexpected(5)),
        (
            &[0x82, 0, 0, 0, 1, 0, 0, 0, 0, 1, 0xC3],
            ReplyFault::Unexpected(10),
        ),
        (&[0x82, 0, 0, 0, 1, 0, 0, 0, 0, 2, 0xC3], ReplyFault::Ends),
        (
            &[0x82, 0, 0, 0, 1, 0, 0, 0, 0, 2, 0xC3, 0x28],
            ReplyFault::Unexpected(11),
        ),
        (
            &[0x82, 0, 0, 0, 1, 0, 0, 0, 0, 3, b'a', 0xE2, 0x82],
            ReplyFault::Unexpected(11),
        ),
    ];
    for (text, wanted) in rows {
        assert_eq!(rt; fault(alloc, text), Some(wanted));
    }
}

#[test]
fn the_first_tree_at_level_201_is_named(rt: HostRuntime) -> Result<(), Fail> {
    let mut text = vec![in rt.alloc(); 0x82, 0, 0, 0, 1]?;
    for _ in 0..200 {
        text.extend_from_slice(&[0, 0, 0, 0, 0, 0, 0, 0, 1])?;
    }
    text.pop();
    let mut shallow = Vec::from_slice(rt.alloc(), &text)?;
    shallow.push(0)?;
    assert_eq!(rt; fault(rt.alloc(), &shallow), None);
    text.extend_from_slice(&[1, 0, 0, 0, 0, 0, 0, 0, 0, 0])?;
    assert_eq!(rt; fault(rt.alloc(), &text), Some(ReplyFault::TooDeep(1805)));
    Ok(())
}
