// Whether a text is one of the grammar, and where it stops to be.
ghost use Rattle.std.specs.Prelude.{◌≡◌, ◌<◌, ◌≤◌, ◌+◌, ◌^◌, length, IfSome, IsUtf8};
ghost use Rattle.mix_tree.specs.LabelGrammar.{is_escape};
ghost use Rattle.mix_tree.specs.Names.{is_name_byte};
ghost use Rattle.path_expr.specs.Depth.{deep_here, first_of};
ghost use Rattle.path_expr.specs.Grammar.{is_mark};
ghost use Rattle.path_expr.specs.Machine.{first};
ghost use Rattle.path_expr.specs.Scanned.{shape_of, shape_step, shape_after, is_whole};
ghost use Rattle.path_expr.specs.Results.{Scans};

use crate::PathFault;

// The most parentheses that may be open at once.
const DEPTH: usize = 100;

// What stands before a byte.
#[derive(Clone, Copy)]
enum Stage {
    Start,
    Naming,
    Quoting,
    Escaping,
    PastAtom,
    PastRepeat,
}

/// What a scan of a path keeps: how many parentheses are open, and what stands before the next byte.
#[derive(Clone, Copy)]
pub struct Scan {
    depth: usize,
    stage: Stage,
}

impl Scan {
    /// The scan before a path.
    pub fn new() -> Scan
        ensures { result ≡ shape_of first }
    {
        Scan {
            depth: 0,
            stage: Stage::Start,
        }
    }
}

/// Whether a name may have the byte.
pub fn is_name(byte: u8) -> bool
    ensures { result ≡ is_name_byte byte }
{
    matches!(byte, b'a'..=b'z' | b'A'..=b'Z' | b'0'..=b'9' | b'_' | b'-')
}

/// Whether the byte may stand after a backslash.
pub fn is_escaped(byte: u8) -> bool
    ensures { result ≡ is_escape byte }
{
    matches!(byte, b'"' | b'\\' | b'n' | b't')
}

/// Whether the byte is a mark: `*`, `+` or `?`.
pub fn is_mark_byte(byte: u8) -> bool
    ensures { result ≡ is_mark byte }
{
    matches!(byte, b'*' | b'+' | b'?')
}

/// The scan after one more byte; `None` where no path's text goes on with it.
pub fn scan_byte(scan: Scan, byte: u8) -> Option<Scan>
    requires { scan.depth + 1 < 2 ^ 64 }
    ensures step { result ≡ shape_step scan byte }
    ensures depth { IfSome result (λ next. next.depth ≤ scan.depth + 1) }
{
    let depth = scan.depth;
    let stage = match scan.stage {
        Stage::Start if is_name(byte) => Stage::Naming,
        Stage::Start if byte == b'"' => Stage::Quoting,
        Stage::Start if byte == b'(' => {
            return Some(Scan {
                depth: depth + 1,
                stage: Stage::Start,
            });
        }
        Stage::Start => return None,
        Stage::Quoting if byte == b'"' => Stage::PastAtom,
        Stage::Quoting if byte == b'\\' => Stage::Escaping,
        Stage::Quoting => Stage::Quoting,
        Stage::Escaping if is_escaped(byte) => Stage::Quoting,
        Stage::Escaping => return None,
        Stage::Naming if is_name(byte) => Stage::Naming,
        Stage::Naming | Stage::PastAtom if is_mark_byte(byte) => Stage::PastRepeat,
        Stage::Naming | Stage::PastAtom | Stage::PastRepeat => return scan_after(depth, byte),
    };
    Some(Scan { depth, stage })
}

// The scan after one more byte, which ends a member.
fn scan_after(depth: usize, byte: u8) -> Option<Scan>
    ensures { result ≡ shape_after depth byte }
{
    match byte {
        b'.' | b'|' => Some(Scan {
            depth,
            stage: Stage::Start,
        }),
        b')' if depth > 0 => Some(Scan {
            depth: depth - 1,
            stage: Stage::PastAtom,
        }),
        _ => None,
    }
}

/// Whether a path's text may end where the scan stands.
pub fn may_end_scan(scan: Scan) -> bool
    ensures { result ≡ is_whole scan }
{
    matches!(
        scan.stage,
        Stage::Naming | Stage::PastAtom | Stage::PastRepeat
    ) && scan.depth == 0
}

// The first place at which more than 100 parentheses are open: the one found before, else the one at hand.
fn first_deep(found: Option<usize>, depth: usize, at: usize) -> Option<usize>
    ensures { result ≡ first_of found (deep_here depth at) }
{
    match found {
        None if depth > DEPTH => Some(at),
        _ => found,
    }
}

/// Passes over a text of the grammar, and answers its first parenthesis that is open inside 100 others. The error says
/// where the text stops to be one of the grammar.
pub fn scan_path(text: &[u8]) -> Result<Option<usize>, PathFault>
    requires { IsUtf8 text.now }
    ensures { Scans text.now result }
{
    let mut scan = Scan::new();
    let mut deep = None;
    for at in 0..text.len() {
        let Some(next) = scan_byte(scan, text[at]) else {
            return Err(PathFault::Unexpected(at));
        };
        deep = first_deep(deep, next.depth, at);
        scan = next;
    }
    if may_end_scan(scan) {
        return Ok(deep);
    }
    Err(PathFault::Ends)
}
