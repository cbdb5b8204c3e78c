// Labels that stand for all labels, to a path.
ghost use Rattle.std.specs.Prelude.{◌≡◌, ◌++◌, ◌∷◌, [], OnOk, IfOk, string_bytes};
ghost use Rattle.path_expr.specs.Form.{paths_of};
ghost use Rattle.path_auto.specs.Sets.{tests_by, tests_of};
ghost use Rattle.browse_visit.specs.Samples.{written, all_bytes, sample_labels};

use mix_tree::Label;
use path_expr::{Node, Path};
use std::alloc::{AllocError, Global};
use std::str;

// Writes a label's text after others.
fn push_text(all: &mut String, label: &Label) -> Result<(), AllocError>
    ensures { OnOk result (string_bytes all.new ≡ string_bytes all.old ++ label.now) }
{
    match str::from_utf8(label.bytes()) {
        Ok(text) => all.push_str(text),
        Err(_) => unreachable!(),
    }
}

// Puts the labels that a path writes after others.
#[cycle(names)]
#[tactic(auto, using(crate::proofs::SampleLaws::names_alone))]
fn push_names(alloc: Global, path: &Path, labels: &mut Vec<Label>) -> Result<(), AllocError>
    ensures { OnOk result (labels.new.items ≡ labels.old.items ++ written (tests_by path.now.head (tests_of path.now.members))) }
{
    match path.node() {
        Node::Name(label) => {
            labels.push(label.copy(alloc)?)?;
            Ok(())
        }
        Node::Any => Ok(()),
        Node::Seq(paths) | Node::Alt(paths) => push_all_names(alloc, paths, labels),
        Node::Star(path) | Node::Plus(path) | Node::Opt(path) => push_names(alloc, path, labels),
    }
}

// Puts the labels that several paths write after other labels.
#[cycle(names)]
#[tactic(auto, using(crate::proofs::SampleLaws::names_pushed))]
fn push_all_names(alloc: Global, paths: &[Path], labels: &mut Vec<Label>) -> Result<(), AllocError>
    ensures { OnOk result (labels.new.items ≡ labels.old.items ++ written (tests_of (paths_of paths.now))) }
{
    let Some((first, rest)) = paths.split_first() else {
        return Ok(());
    };
    push_names(alloc, first, labels)?;
    push_all_names(alloc, rest, labels)?;
    Ok(())
}

// A label that is longer than each of these.
fn other_label(alloc: Global, labels: &[Label]) -> Result<Label, AllocError>
    ensures { IfOk result (λ l. l ≡ 97 ∷ all_bytes labels.now) }
{
    let mut other = String::from_str(alloc, "a")?;
    for label in labels {
        push_text(&mut other, label)?;
    }
    Label::of_text(alloc, other.as_str().as_bytes())
}

/// The labels that a path writes, and one that it does not write: to the path each label is as one of these.
pub fn sample_labels(alloc: Global, path: &Path) -> Result<Vec<Label>, AllocError>
    ensures { IfOk result (λ ls. ls.items ≡ sample_labels (tests_by path.now.head (tests_of path.now.members))) }
{
    let mut labels = Vec::new(alloc);
    push_names(alloc, path, &mut labels)?;
    let other = other_label(alloc, &labels)?;
    labels.push(other)?;
    Ok(labels)
}
