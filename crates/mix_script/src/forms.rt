// What the words of a line ask for.
ghost use Rattle.std.specs.Prelude.{◌≡◌, ◌&&◌, ℕ, List, IfOk, IsTrue, codes};
ghost use Rattle.std.specs.Str.{bytes_eq};
ghost use Rattle.mix_words.specs.Words.{is_name, words_of};
ghost use Rattle.mix_script.specs.LineWords.{AreWords};
ghost use Rattle.mix_script.specs.Forms.{act_by, act_named, act_of, at_form, id_act_of, id_form, is_select_form, move_form, read_form, reading_named, root_form, select_of, way_named};
ghost use Rattle.node_text.specs.Machine.{read_of};

use crate::words::{LineWords, line_words};
use crate::{Act, Forms, Way};
use mix_tree::Label;
use mix_words::words::is_script_name;
use node_text::{NodeData, NodeFault, read_node};
use std::alloc::{AllocError, Global};

// The label of a name.
fn name_label(alloc: Global, name: &[u8]) -> Result<Label, AllocError>
    requires { IsTrue (is_name name.now) }
    ensures { IfOk result (λ l. l ≡ name.now) }
{
    Label::of_text(alloc, name)
}

// The way that a word names.
fn read_way(word: &[u8]) -> Option<Way>
    ensures { result ≡ way_named word.now }
{
    match word {
        b"down" => Some(Way::Down),
        b"right" => Some(Way::Right),
        _ => None,
    }
}

// Whether words begin with `X =`.
fn is_assigned(name: &[u8], is: &[u8]) -> bool
    ensures { result ≡ (is_name name.now && bytes_eq is.now (codes "=")) }
{
    is_script_name(name) && matches!(is, b"=")
}

// The command of a word that stands before a name.
fn read_command(
    alloc: Global,
    name: &[u8],
    command: &[u8],
    from: &[u8],
) -> Result<Option<Act>, AllocError>
    requires name { IsTrue (is_name name.now) }
    requires from { IsTrue (is_name from.now) }
    ensures { IfOk result (λ act. act ≡ act_named name.now command.now from.now) }
{
    let Some(way) = read_way(command) else {
        return Ok(None);
    };
    let name = name_label(alloc, name)?;
    let from = name_label(alloc, from)?;
    Ok(Some(Act::Move { way, name, from }))
}

// The act of the words `X = down Y` and `X = right Y`.
fn read_move(
    alloc: Global,
    name: &[u8],
    is: &[u8],
    command: &[u8],
    from: &[u8],
) -> Result<Option<Act>, AllocError>
    ensures { IfOk result (λ act. act ≡ move_form name.now is.now command.now from.now) }
{
    if is_assigned(name, is) && is_script_name(from) {
        return read_command(alloc, name, command, from);
    }
    Ok(None)
}

// The act of the words `X = root`.
fn read_root(
    alloc: Global,
    name: &[u8],
    is: &[u8],
    command: &[u8],
) -> Result<Option<Act>, AllocError>
    ensures { IfOk result (λ act. act ≡ root_form name.now is.now command.now) }
{
    if is_assigned(name, is) && matches!(command, b"root") {
        return Ok(Some(Act::Root {
            name: name_label(alloc, name)?,
        }));
    }
    Ok(None)
}

// What a word asks for that stands alone before a name.
fn read_reading(alloc: Global, command: &[u8], from: &[u8]) -> Result<Option<Act>, AllocError>
    requires { IsTrue (is_name from.now) }
    ensures { IfOk result (λ act. act ≡ reading_named command.now from.now) }
{
    match command {
        b"fetch" => Ok(Some(Act::Fetch {
            from: name_label(alloc, from)?,
        })),
        b"print" => Ok(Some(Act::Print {
            from: name_label(alloc, from)?,
        })),
        _ => Ok(None),
    }
}

// The act of the words `fetch Y` and `print Y`.
fn read_of(alloc: Global, command: &[u8], from: &[u8]) -> Result<Option<Act>, AllocError>
    ensures { IfOk result (λ act. act ≡ read_form command.now from.now) }
{
    if is_script_name(from) {
        return read_reading(alloc, command, from);
    }
    Ok(None)
}

// What the words of a line ask for that end with a name or `root`.
fn read_plain(alloc: Global, words: LineWords) -> Result<Option<Act>, AllocError>
    ensures { (ws : List (List ℕ)) → AreWords ws words.entry → IfOk result (λ act. act ≡ act_of ws) }
{
    match words {
        LineWords::Two(command, from) => read_of(alloc, command, from),
        LineWords::Three(name, is, command) => read_root(alloc, name, is, command),
        LineWords::Four(name, is, command, from) => read_move(alloc, name, is, command, from),
        LineWords::Other => Ok(None),
    }
}

// What a text says, where it is that of an identifier.
fn read_text(alloc: Global, text: &[u8]) -> Result<Option<NodeData>, AllocError>
    ensures { IfOk result (λ node. node ≡ read_of text.now) }
{
    match read_node(alloc, text) {
        Ok(node) => Ok(Some(node)),
        Err(NodeFault::Unexpected(_)) => Ok(None),
        Err(NodeFault::Ends) => Ok(None),
        Err(NodeFault::OutOfMemory) => Err(AllocError),
    }
}

// The act of the words `X = at TEXT`.
fn read_at(
    alloc: Global,
    name: &[u8],
    is: &[u8],
    command: &[u8],
    text: &[u8],
) -> Result<Option<Act>, AllocError>
    ensures { IfOk result (λ act. act ≡ at_form name.now is.now command.now text.now) }
{
    if !is_assigned(name, is) || command != b"at".as_slice() {
        return Ok(None);
    }
    let Some(node) = read_text(alloc, text)? else {
        return Ok(None);
    };
    let name = name_label(alloc, name)?;
    Ok(Some(Act::At { name, node }))
}

// The act of the words `id Y`.
fn read_id(alloc: Global, command: &[u8], from: &[u8]) -> Result<Option<Act>, AllocError>
    ensures { IfOk result (λ act. act ≡ id_form command.now from.now) }
{
    if command == b"id".as_slice() && is_script_name(from) {
        let from = name_label(alloc, from)?;
        return Ok(Some(Act::Id { from }));
    }
    Ok(None)
}

// What the words of a line ask for that are of a form of identifiers.
fn read_id_act(alloc: Global, words: LineWords) -> Result<Option<Act>, AllocError>
    ensures { (ws : List (List ℕ)) → AreWords ws words.entry → IfOk result (λ act. act ≡ id_act_of ws) }
{
    match words {
        LineWords::Two(command, from) => read_id(alloc, command, from),
        LineWords::Four(name, is, command, text) => read_at(alloc, name, is, command, text),
        LineWords::Three(_, _, _) | LineWords::Other => Ok(None),
    }
}

/// What the words of a line ask for, of no more words than four; `None` where they are of no form that lines may have.
pub fn read_act(alloc: Global, words: LineWords, forms: Forms) -> Result<Option<Act>, AllocError>
    ensures { (ws : List (List ℕ)) → AreWords ws words.entry → IfOk result (λ act. act ≡ act_by forms ws) }
{
    let act = read_plain(alloc, words)?;
    match forms {
        Forms::Plain => Ok(act),
        Forms::WithIds => match act {
            Some(act) => Ok(Some(act)),
            None => read_id_act(alloc, words),
        },
    }
}

// Whether words are `X = select Y`.
fn is_select(name: &[u8], is: &[u8], command: &[u8], from: &[u8]) -> bool
    ensures { result ≡ is_select_form name.now is.now command.now from.now }
{
    is_assigned(name, is) && command == b"select".as_slice() && is_script_name(from)
}

/// What the words before a label ask for, which are `X = select Y`; `None` where they are others.
pub fn read_select(alloc: Global, prefix: &[u8], label: Label) -> Result<Option<Act>, AllocError>
    ensures { IfOk result (λ act. act ≡ select_of (words_of prefix.now) label) }
{
    match line_words(prefix) {
        LineWords::Four(name, is, command, from) if is_select(name, is, command, from) => {
            let name = name_label(alloc, name)?;
            let from = name_label(alloc, from)?;
            Ok(Some(Act::Select { name, from, label }))
        }
        _ => Ok(None),
    }
}
