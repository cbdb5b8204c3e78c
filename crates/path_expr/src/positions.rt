// Counting the label positions of a path.
ghost use Rattle.std.specs.Prelude.{◌≡◌, ◌<◌, ◌^◌};
ghost use Rattle.path_expr.specs.Form.{positions_in, positions_of, paths_of};
ghost use Rattle.path_expr.specs.Count.{count_by, count as count_of};

use crate::path::{Node, Path};

/// How many label positions a path has: its labels and `_`.
#[cycle(count)]
pub fn count_positions(path: &Path) -> usize
    requires { positions_in path.now < 2 ^ 64 }
    ensures positions { result ≡ positions_in path.now }
    ensures listed { result ≡ count_by path.now.head (count_of path.now.members) }
{
    match path.node() {
        Node::Name(_) | Node::Any => 1,
        Node::Seq(paths) | Node::Alt(paths) => count_all(paths),
        Node::Star(path) | Node::Plus(path) | Node::Opt(path) => count_positions(path),
    }
}

// How many label positions some paths have together.
#[cycle(count)]
fn count_all(paths: &[Path]) -> usize
    requires { positions_of (paths_of paths.now) < 2 ^ 64 }
    ensures positions { result ≡ positions_of (paths_of paths.now) }
    ensures listed { result ≡ count_of (paths_of paths.now) }
{
    let mut count = 0;
    for path in paths {
        count += count_positions(path);
    }
    count
}
