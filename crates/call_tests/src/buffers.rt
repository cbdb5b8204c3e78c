// What no clause says of buffers: that steps and walks succeed at each cutting, with fills counted by hand, again after each
// fault, and over the second of two documents.
use crate::documents::{document, joined, source, sources};
use lxp_core::WalkFault;
use mix_tree::Place;
use std::alloc::Global;
use std::test::Fail;
use tree_buffer::Buffer;
use walk_tree::{walk, walk_all};

// The bracket text of the document that is walked.
const DOCUMENT: &str = "a[b[d,e],c]";

// The place of the second child of the root. It is found twice, at one spot.
fn second_child(alloc: Global) -> Result<Place, Fail> {
    let mut s = source(alloc, DOCUMENT)?;
    let mut buffer = Buffer::open(alloc, &s, 0)?;
    let top = buffer.top();
    let root = buffer.down(alloc, &mut s, &top)?.ok_or("no root")?;
    let b = buffer.down(alloc, &mut s, &root)?.ok_or("no child")?;
    let c = buffer.right(alloc, &mut s, &b)?.ok_or("no second child")?;
    let again = buffer.right(alloc, &mut s, &b)?.ok_or("no second child")?;
    if !Buffer::same_spot(&c, &again) || Buffer::same_spot(&b, &c) || buffer.number() != 0 {
        return Err("other spots".into());
    }
    Ok(buffer.place(alloc, &c)?)
}

#[test]
fn a_child_stands_at_its_place(rt: HostRuntime) -> Result<(), Fail> {
    let place = second_child(rt.alloc())?;
    assert_eq!(rt; place.steps(), [0, 1].as_slice());
    Ok(())
}

#[test]
fn each_cutting_is_walked(rt: HostRuntime) -> Result<(), Fail> {
    let alloc = rt.alloc();
    // The choices, whether the source is forward, and how many fills a walk asks.
    let rows: [(&[u8], bool, u64); 5] = [
        // One child at a time.
        (&[], true, 5),
        // Holes lead and trail where no child is left for them.
        (&[0, 3], false, 11),
        // Holes lead for a child.
        (&[65], false, 8),
        // Whole subtrees.
        (&[4], true, 1),
        // Holes trail where no child is left for them.
        (&[2], true, 11),
    ];
    for (choices, forward, fills) in rows {
        let docs = vec![in alloc; document(alloc, DOCUMENT)?]?;
        let choices = choices.to_vec(alloc)?;
        let mut s = sources(alloc, docs, choices, Vec::new(alloc), forward)?;
        let labels = walk_all(alloc, &mut s, 0)?;
        assert_eq!(rt; joined(alloc, &labels)?.as_slice(), b"abdec".as_slice());
        assert_eq!(rt; s.fills(), fills);
    }
    Ok(())
}

#[test]
fn a_walk_answers_after_each_fault(rt: HostRuntime) -> Result<(), Fail> {
    let alloc = rt.alloc();
    for failing in 1..6 {
        let docs = vec![in alloc; document(alloc, DOCUMENT)?]?;
        let failing = vec![in alloc; failing]?;
        let mut s = sources(alloc, docs, Vec::new(alloc), failing, true)?;
        let mut buffer = Buffer::open(alloc, &s, 0)?;
        let top = buffer.top();
        let mut out = Vec::new(alloc);
        assert!(rt;
            walk(alloc, &mut s, &mut buffer, &top, &mut out).err() == Some(WalkFault::Failed(0))
        );
        let mut again = Vec::new(alloc);
        walk(alloc, &mut s, &mut buffer, &top, &mut again)?;
        assert_eq!(rt; joined(alloc, &again)?.as_slice(), b"abdec".as_slice());
        assert_eq!(rt; s.fills(), 6);
    }
    Ok(())
}

#[test]
fn the_second_of_two_documents_is_walked(rt: HostRuntime) -> Result<(), Fail> {
    let alloc = rt.alloc();
    let docs = vec![in alloc; document(alloc, "a[b]")?, document(alloc, "c")?]?;
    let mut s = sources(alloc, docs, Vec::new(alloc), Vec::new(alloc), true)?;
    let others = walk_all(alloc, &mut s, 1)?;
    assert_eq!(rt; joined(alloc, &others)?.as_slice(), b"c".as_slice());
    Ok(())
}
