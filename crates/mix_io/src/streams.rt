// What a client that is alive is answered over.

/// Where a client's lines come from, and where its answers go.
#[derive(Drop)]
pub struct Streams<I, K> {
    pub input: I,
    pub out: K,
}
