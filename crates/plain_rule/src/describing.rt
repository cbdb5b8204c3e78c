// Whether a path describes a list of labels, found by trying every way to split it.
ghost use Rattle.std.specs.Prelude.{◌≡◌, ◌⊎◌, ◌↔◌, ◌<◌, ◌∷◌, [], ℕ, List, IsTrue, length};
ghost use Rattle.path_expr.specs.Form.{paths_of};
ghost use Rattle.path_expr.specs.Description.{Describes, DescribesAs, in_turn, one_of, Then, Many};
ghost use Rattle.plain_rule.specs.Parts.{DescribesAlone, Begins};

use mix_tree::Label;
use path_expr::{Node, Path};

// Whether the list is this label alone.
fn is_alone(wanted: &Label, labels: &[Label]) -> bool
    ensures { IsTrue result ↔ (labels.now ≡ wanted.now ∷ []) }
{
    match labels {
        [label] => wanted == label,
        _ => false,
    }
}

// Whether the list has one label.
fn is_single(labels: &[Label]) -> bool
    ensures { IsTrue result ↔ ((l : List ℕ) × (labels.now ≡ l ∷ [])) }
{
    labels.len() == 1
}

/// Whether the path describes the list of labels.
#[cycle(describing)]
pub fn describes(path: &Path, labels: &[Label]) -> bool
    ensures { IsTrue result ↔ Describes path.now labels.now }
{
    match path.node() {
        Node::Name(wanted) => is_alone(wanted, labels),
        Node::Any => is_single(labels),
        Node::Seq(members) => describes_in_turn(members, labels),
        Node::Alt(members) => describes_one(members, labels),
        Node::Star(member) => describes_many(member, labels),
        Node::Plus(member) => describes_some(member, labels),
        Node::Opt(member) => describes_at_most_one(member, labels),
    }
}

// Whether the first path describes the prefix, and those after it the rest.
#[cycle(describing)]
fn is_split(first: &Path, after: &[Path], prefix: &[Label], rest: &[Label]) -> bool
    ensures { IsTrue result ↔ (Describes first.now prefix.now × DescribesAs (paths_of after.now) in_turn rest.now) }
{
    describes(first, prefix) && describes_in_turn(after, rest)
}

// Whether the list is what the paths describe, one after another.
#[cycle(describing)]
fn describes_in_turn(paths: &[Path], labels: &[Label]) -> bool
    ensures { IsTrue result ↔ DescribesAs (paths_of paths.now) in_turn labels.now }
{
    let Some((first, after)) = paths.split_first() else {
        return labels.is_empty();
    };
    for at in 0..labels.len() + 1 {
        let (prefix, rest) = labels.split_at(at);
        if is_split(first, after, prefix, rest) {
            return true;
        }
    }
    false
}

// Whether one of the paths describes the list.
#[cycle(describing)]
fn describes_one(paths: &[Path], labels: &[Label]) -> bool
    ensures { IsTrue result ↔ DescribesAs (paths_of paths.now) one_of labels.now }
{
    let Some((first, after)) = paths.split_first() else {
        return false;
    };
    describes(first, labels) || describes_one(after, labels)
}

// Whether the path describes the prefix, and any number of such lists are the rest.
#[cycle(describing)]
fn is_begun(path: &Path, prefix: &[Label], rest: &[Label]) -> bool
    requires { 0 < length prefix.now }
    ensures { IsTrue result ↔ (Describes path.now prefix.now × Many (DescribesAlone path.now) rest.now) }
{
    describes(path, prefix) && describes_many(path, rest)
}

// Whether the list begins with labels that the path describes, and goes on with any number of such lists.
#[cycle(describing)]
fn begins(path: &Path, labels: &[Label]) -> bool
    ensures { IsTrue result ↔ Begins (DescribesAlone path.now) labels.now }
{
    for at in 1..labels.len() + 1 {
        let (prefix, rest) = labels.split_at(at);
        if is_begun(path, prefix, rest) {
            return true;
        }
    }
    false
}

// Whether the list is any number of lists that the path describes, one after another.
#[cycle(describing)]
fn describes_many(path: &Path, labels: &[Label]) -> bool
    ensures { IsTrue result ↔ Many (DescribesAlone path.now) labels.now }
{
    if labels.is_empty() {
        return true;
    }
    begins(path, labels)
}

// Whether the list is at least one list that the path describes, one after another.
#[cycle(describing)]
fn describes_some(path: &Path, labels: &[Label]) -> bool
    ensures { IsTrue result ↔ Then (DescribesAlone path.now) (Many (DescribesAlone path.now)) labels.now }
{
    if labels.is_empty() {
        return describes(path, labels);
    }
    begins(path, labels)
}

// Whether the list is empty, or the path describes it.
#[cycle(describing)]
fn describes_at_most_one(path: &Path, labels: &[Label]) -> bool
    ensures { IsTrue result ↔ ((labels.now ≡ []) ⊎ DescribesAlone path.now labels.now) }
{
    if labels.is_empty() {
        return true;
    }
    describes(path, labels)
}
