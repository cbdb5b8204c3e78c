// Spots: names of the nodes that a buffer handed out.

/// A node that a buffer handed out. It stands for the same node as long as the buffer is there.
#[derive(Clone, Copy, Debug, PartialEq, Eq, Hash)]
pub struct Spot {
    pub(crate) number: u32,
}
