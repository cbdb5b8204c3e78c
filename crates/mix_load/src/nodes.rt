// The nodes of a tree, counted in its canonical text.
ghost use Rattle.std.specs.Prelude.{◌≡◌, ◌<◌, ◌^◌, length};
ghost use Rattle.mix_tree.specs.Forest.{LabelledTree};
ghost use Rattle.mix_tree.specs.Weight.{tree_nodes};
ghost use Rattle.bracket_text.specs.Canonical.{canon};
ghost use Rattle.mix_load.specs.Parts.{after, parts_at};

/// Where a byte of bracket text stands: outside of quotes, in them, or in them after a backslash.
#[derive(Clone, Copy, PartialEq, Eq)]
pub enum Stand {
    Outside,
    Quoted,
    Escaped,
}

// Where the byte after a given byte stands.
fn after(stand: Stand, byte: u8) -> Stand
    ensures { result ≡ after stand byte }
{
    match (stand, byte) {
        (Stand::Outside, b'"') => Stand::Quoted,
        (Stand::Outside, _) => Stand::Outside,
        (Stand::Quoted, b'"') => Stand::Outside,
        (Stand::Quoted, b'\\') => Stand::Escaped,
        (Stand::Quoted | Stand::Escaped, _) => Stand::Quoted,
    }
}

// Whether a byte stands between a tree and the next one in document order.
fn parts_at(stand: Stand, byte: u8) -> bool
    ensures { result ≡ parts_at stand byte }
{
    match stand {
        Stand::Outside => byte == b'[' || byte == b',',
        Stand::Quoted | Stand::Escaped => false,
    }
}

/// How many nodes the tree of a canonical text has: one more than the text has opening brackets and commas outside of quotes.
pub fn count_nodes(text: &[u8]) -> usize
    ensures { (t : LabelledTree) → text.now ≡ canon t → result ≡ tree_nodes t }
{
    let mut stand = Stand::Outside;
    let mut parts = 0;
    'bytes: for byte in text {
        if parts_at(stand, *byte) {
            parts += 1;
        }
        stand = after(stand, *byte);
    }
    parts + 1
}
