// Answers, and the lines that tell them.
ghost use Rattle.std.specs.Prelude.{◌≡◌, ◌++◌, ℕ, List, IfOk, IfSome, OnOk, length};
ghost use Rattle.mix_script.specs.Answers.{line_of, answer_text, prefix_of, IsNamed};

use crate::Step;
use mix_tree::{Label, push_label};
use std::alloc::{AllocError, Global};
use std::marker::Model;

/// A text, seen as its bytes.
#[derive(Drop)]
pub struct Text {
    bytes: Vec<u8>,
}

impl Model for Text {
    ghost use Rattle.std.specs.Prelude.{List, ℕ};

    ghost Value = { List ℕ };

    ghost view = { λ t. t.bytes.items };
}

impl Text {
    /// The text of these bytes.
    pub fn new(bytes: Vec<u8>) -> Text
        ensures { result ≡ bytes.items }
    {
        Text { bytes }
    }

    /// The bytes of the text.
    pub fn bytes(&self) -> &[u8]
        ensures { result.now ≡ self.now }
    {
        &self.bytes
    }
}

/// The answer to a command: a node was found, or none; a node's label; the canonical bracket text of a subtree; the name
/// holds no node; the source of this number failed; the text of an identifier; or a text names no node.
#[derive(Drop)]
pub enum Answer {
    Node,
    None,
    Label(Label),
    Text(Text),
    NoNode,
    Fault(u32),
    Id(Text),
    Foreign,
}

// Writes the client's name and `: ` where the client has a name.
fn push_prefix(line: &mut Vec<u8>, client: &Label) -> Result<(), AllocError>
    ensures { OnOk result (line.new.items ≡ line.old.items ++ prefix_of client.now) }
{
    if client.bytes().is_empty() {
        return Ok(());
    }
    line.extend_from_slice(client.bytes())?;
    line.extend_from_slice(b": ")?;
    Ok(())
}

// Writes an answer's text.
fn push_answer(line: &mut Vec<u8>, answer: &Answer, sources: &[Label]) -> Result<(), AllocError>
    requires { IsNamed (length sources.now) answer.now }
    ensures { OnOk result (line.new.items ≡ line.old.items ++ answer_text sources.now answer.now) }
{
    match answer {
        Answer::Node => line.extend_from_slice(b"node"),
        Answer::None => line.extend_from_slice(b"none"),
        Answer::Label(label) => {
            line.extend_from_slice(b"label ")?;
            push_label(line, label)
        }
        Answer::Text(text) => {
            line.extend_from_slice(b"text ")?;
            line.extend_from_slice(text.bytes())
        }
        Answer::NoNode => line.extend_from_slice(b"no node"),
        Answer::Fault(source) => {
            line.extend_from_slice(b"fault ")?;
            line.extend_from_slice(sources[*source as usize].bytes())
        }
        Answer::Id(text) => {
            line.extend_from_slice(b"id ")?;
            line.extend_from_slice(text.bytes())
        }
        Answer::Foreign => line.extend_from_slice(b"foreign"),
    }
}

// Room for an answer's text. A label that is quoted and has escapes takes more.
fn text_room(answer: &Answer) -> usize {
    match answer {
        Answer::Label(label) => label.bytes().len().saturating_add(8),
        Answer::Text(text) => text.bytes().len().saturating_add(5),
        Answer::Id(text) => text.bytes().len().saturating_add(3),
        Answer::Node | Answer::None | Answer::NoNode | Answer::Fault(_) | Answer::Foreign => 16,
    }
}

// Room for a line: the client's name with a colon, the text and an LF.
fn line_room(client: &Label, answer: &Answer) -> usize {
    client
        .bytes()
        .len()
        .saturating_add(text_room(answer))
        .saturating_add(3)
}

/// The line that tells the client without a name whether a node was found, as most lines do. It takes no memory. `None`: it is another line.
pub fn usual_line(client: &Label, answer: &Answer) -> Option<&'static [u8]>
    ensures { IfSome result (λ line. (sources : List (List ℕ)) → line.now ≡ line_of sources client.now answer.now) }
{
    if !client.bytes().is_empty() {
        return None;
    }
    match answer {
        Answer::Node => Some(b"node\n"),
        Answer::None => Some(b"none\n"),
        Answer::Label(_)
        | Answer::Text(_)
        | Answer::NoNode
        | Answer::Fault(_)
        | Answer::Id(_)
        | Answer::Foreign => None,
    }
}

/// The line that tells a step's answer, with its LF. `sources` has the sources' names by their numbers.
pub fn write_answer(
    alloc: Global,
    step: &Step,
    answer: &Answer,
    sources: &[Label],
) -> Result<Vec<u8>, AllocError>
    requires { IsNamed (length sources.now) answer.now }
    ensures { IfOk result (λ line. line.items ≡ line_of sources.now step.now.client answer.now) }
{
    let mut line = Vec::with_capacity(alloc, line_room(&step.client, answer))?;
    push_prefix(&mut line, &step.client)?;
    push_answer(&mut line, answer, sources)?;
    line.push(b'\n')?;
    Ok(line)
}
