// The rules of lists that come, and the holes that are learned from them.
use lxp_core::HoleId;
use lxp_remote::{Broken, Peer, Unlearned, broken_rule, learn, open_list};
use mix_tree::Label;
use std::alloc::Global;
use std::test::Fail;
use wire_text::{Hole, WireTree};

fn hole(word: u64, weight: u128) -> Hole {
    let id = HoleId {
        words: [0, 0, word],
    };
    Hole { id, weight }
}

// A list: a letter is a leaf, a digit a hole of that number and weight.
fn list(alloc: Global, text: &str) -> Result<Vec<WireTree>, Fail> {
    let mut trees = Vec::new(alloc);
    for byte in text.as_bytes() {
        if byte.is_ascii_digit() {
            let number = *byte - b'0';
            trees.push(WireTree::Hole(hole(number as u64, number as u128)))?;
        } else {
            let label = Label::new(alloc, &[*byte])?.ok_or("no label")?;
            let kids = Vec::new(alloc);
            trees.push(WireTree::Node { label, kids })?;
        }
    }
    Ok(trees)
}

#[test]
fn the_first_broken_rule_is_named(rt: HostRuntime) -> Result<(), Fail> {
    let rows = [
        ("", 0, None),
        ("c", 1, None),
        ("1c2", 4, None),
        ("12", 9, Some(Broken::HolesOnly)),
        ("c12", 9, Some(Broken::AdjacentHoles)),
        ("c", 0, Some(Broken::Weight)),
        ("1c2", 3, Some(Broken::Weight)),
    ];
    for (text, weight, wanted) in rows {
        assert_eq!(rt; broken_rule(&list(rt.alloc(), text)?, weight), wanted);
    }
    Ok(())
}

#[test]
fn a_hole_keeps_the_weight_that_it_came_with(rt: HostRuntime) -> Result<(), Fail> {
    let alloc = rt.alloc();
    let mut peer = Peer::new(alloc, hole(9, 9));
    assert!(rt; learn(&peer.root, &mut peer.known, &list(alloc, "1c2")?).is_ok());
    assert_eq!(rt; peer.weight(hole(2, 0).id), Some(2));
    assert_eq!(rt; peer.weight(hole(9, 0).id), Some(9));
    assert_eq!(rt; peer.weight(hole(3, 0).id), None);
    let mut other = list(alloc, "3c")?;
    other.push(WireTree::Hole(hole(2, 5)))?;
    assert_eq!(rt;
        learn(&peer.root, &mut peer.known, &other).err(),
        Some(Unlearned::Changed)
    );
    assert_eq!(rt; peer.weight(hole(3, 0).id), None);
    assert_eq!(rt; open_list(alloc, other)?.len(), 3);
    Ok(())
}
