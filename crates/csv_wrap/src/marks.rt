// Byte order marks at the beginning of a file.
ghost use Rattle.std.specs.Prelude.{◌≡◌};
ghost use Rattle.csv_wrap.specs.Csv.{begins_with_mark, without_marks};

// Whether bytes begin with a byte order mark.
fn is_marked(bytes: &[u8]) -> bool
    ensures { result ≡ begins_with_mark bytes.now }
{
    bytes.len() >= 3 && bytes[0] == 0xEF && bytes[1] == 0xBB && bytes[2] == 0xBF
}

/// The bytes after all byte order marks with which they begin.
#[tactic(auto, using(crate::proofs::PrefixFacts::marked_drop, crate::proofs::PrefixFacts::marked_len, crate::proofs::PrefixFacts::unmarked))]
pub fn without_marks(bytes: &[u8]) -> &[u8]
    ensures { result.now ≡ without_marks bytes.now }
{
    let mut rest = bytes;
    'marks: while is_marked(rest) {
        rest = rest.split_at(3).1;
    }
    rest
}
