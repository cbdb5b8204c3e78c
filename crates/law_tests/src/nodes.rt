// Identifiers of nodes as text: what they come to when they are read and written again, or why they aren't read.
use node_text::NodeFault::{Ends, Unexpected};
use node_text::{NodeData, NodeFault, no_text_spells_two_nodes, read_node, write_node};
use std::alloc::Global;

// How many levels and places there are, and how long the place below is.
fn parts(node: &NodeData) -> (usize, usize, usize) {
    let places = match node.levels.last() {
        Some(level) => level.tuple.len(),
        None => 0,
    };
    (node.levels.len(), places, node.inside.steps().len())
}

// Whether a text has these parts and is written again, or is refused so.
fn comes_to(alloc: Global, text: &[u8], wanted: Result<(usize, usize, usize), NodeFault>) -> bool {
    match (read_node(alloc, text), wanted) {
        (Ok(node), Ok(wanted)) => match write_node(alloc, &node) {
            Ok(again) => parts(&node) == wanted && again.as_slice() == text,
            Err(_) => false,
        },
        (Err(found), Err(wanted)) => found == wanted,
        _ => false,
    }
}

// A text, with the count of its levels, of the last one's places, and of the numbers of the place below, or its refusal.
type Row = (&'static [u8], Result<(usize, usize, usize), NodeFault>);

const TEXTS: &[Row] = &[
    (b"-", Ok((0, 0, 0))),
    (b"0", Ok((1, 0, 0))),
    (b"0(0.1,0.1.1.0)", Ok((1, 2, 0))),
    (b"0(0.1,0.1.1.0)/0", Ok((2, 0, 0))),
    (b"0(0.1)/1(0.1,0.2):0.3", Ok((2, 2, 2))),
    (b"18446744073709551615", Ok((1, 0, 0))),
    (b"18446744073709551616", Err(Unexpected(19))),
    (b"00", Err(Unexpected(1))),
    (b"-0", Err(Unexpected(1))),
    (b"1/-", Err(Unexpected(2))),
    (b"0()", Err(Unexpected(2))),
    (b"0(0)(0)", Err(Unexpected(4))),
    (b"0:0/0", Err(Unexpected(3))),
    (b"", Err(Ends)),
    (b"0:", Err(Ends)),
    (b"0(0.1", Err(Ends)),
    (b"0/", Err(Ends)),
];

#[test]
fn identifiers_come_to_their_parts_or_a_refusal(rt: HostRuntime) {
    for (text, wanted) in TEXTS {
        assert!(rt; comes_to(rt.alloc(), text, *wanted));
    }
    no_text_spells_two_nodes();
}
