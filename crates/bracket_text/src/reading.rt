// Reading the tree that a text spells.
ghost use Rattle.std.specs.Prelude.{◌≡◌, IfOk};
ghost use Rattle.std.specs.Str.{IsUtf8};
ghost use Rattle.mix_tree.specs.Forest.{LabelledTree};
ghost use Rattle.document_store.specs.Shallow.{IsShallow};
ghost use Rattle.bracket_text.specs.Grammar.{SpellsShallow};
ghost use Rattle.bracket_text.specs.Machine.{empty, verdict};
ghost use Rattle.bracket_text.specs.ReaderState.{GivesDocument};
ghost use Rattle.bracket_text.specs.Results.{Answers, AnswersDocument, IsDocumentOf, IsTree};

use crate::BracketFault;
use crate::ascii::is_ascii_text;
use crate::reader::Reader;
use document_store::Store;
use mix_tree::Tree;
use std::alloc::Global;
use std::str;

// What the machine says of a text.
fn read(alloc: Global, text: &[u8]) -> Result<Store, BracketFault>
    requires { IsUtf8 text.now }
    ensures { GivesDocument result (verdict empty 0 text.now) }
{
    let mut reader = Reader::new(alloc)?;
    let mut at = 0;
    while at < text.len() {
        at = reader.take(text, at)?;
    }
    reader.finish()
}

/// The document of the tree that a text spells, which has at most 200 levels (docs/FORMATS.md, "Bracket text"). `NotUtf8`,
/// `Unexpected` and `TooDeep` name the first byte that is wrong; `Ends`: the text ends where more must come.
pub fn read_document(alloc: Global, text: &[u8]) -> Result<Store, BracketFault>
    // The answer is that of the text: the tree that it spells, or why there is none.
    ensures answers { AnswersDocument text.now result }

    // Its document can be given piece by piece.
    ensures shallow { IfOk result IsShallow }

    // What is spelled is read, unless memory runs out.
    ensures only { (t : LabelledTree) → IsUtf8 text.now → SpellsShallow text.now t → IsDocumentOf result t }
{
    if is_ascii_text(text) {
        return read(alloc, text);
    }
    match str::from_utf8(text) {
        Ok(_) => read(alloc, text),
        Err(error) => Err(BracketFault::NotUtf8(error.valid_up_to())),
    }
}

/// The tree that a text spells. It fails as `read_document` does.
pub fn read_tree(alloc: Global, text: &[u8]) -> Result<Tree, BracketFault>
    // The answer is that of the text: the tree that it spells, or why there is none.
    ensures answers { Answers text.now result }

    // A tree that is spelled is read, unless memory runs out.
    ensures only { (t : LabelledTree) → IsUtf8 text.now → SpellsShallow text.now t → IsTree result t }
{
    let document = read_document(alloc, text)?;
    Ok(document.tree(alloc)?)
}
