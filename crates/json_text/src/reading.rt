// Reading the document of a JSON text.
ghost use Rattle.std.specs.Prelude.{◌≡◌, [], ◌∷◌, Some, None, Err, IfOk, OnOk, MatchResult, option_and_then};
ghost use Rattle.std.specs.Str.{IsUtf8};
ghost use Rattle.document_store.specs.Laid.{IsDocument, bare_node};
ghost use Rattle.document_store.specs.Shallow.{IsShallow};
ghost use Rattle.json.specs.Json.{Json, document, if_last, max_depth, value};
ghost use Rattle.json_text.specs.Answers.{Answers};
ghost use Rattle.json_text.specs.Trees.{value_tree};

use crate::JsonFault;
use crate::stop::Stop;
use crate::values::read_labelled;
use document_store::Store;
use json::{MAX_DEPTH, Reader, Scratch};
use mix_tree::Label;
use std::alloc::Global;
use std::str;

// Reads the only value of a text, and puts in its tree, whose root has this name, below the document node.
fn read_root(reader: &mut Reader, store: &mut Store, name: &[u8]) -> Result<(), Stop>
    requires utf8 { IsUtf8 name.now }
    requires empty { store.old ≡ bare_node [] ∷ [] }
    ensures ok { OnOk result ((v : Json) × (value max_depth reader.old ≡ Some (v, []))
        × IsDocument store.new (value_tree name.now v)) }
    ensures refused { result ≡ Err Stop.NotJson
        → option_and_then (λ p. if_last p.0 p.1) (value max_depth reader.old) ≡ None }
{
    read_labelled(reader, store, name, MAX_DEPTH)?;
    if reader.next().is_some() {
        return Err(Stop::NotJson);
    }
    store.close(0);
    Ok(())
}

// Reads the document of a text that is UTF-8.
fn read(alloc: Global, name: &Label, text: &str) -> Result<Store, JsonFault>
    ensures { Answers text.now name.now result }
{
    let mut scratch = Scratch::new(alloc);
    let mut reader = Reader::new(text, &mut scratch)?;
    let mut store = Store::new(alloc);
    store.push(b"")?;
    match read_root(&mut reader, &mut store, name.bytes()) {
        Ok(()) => {
            store.shrink();
            Ok(store)
        }
        Err(Stop::NotJson) => Err(JsonFault::NotJson(reader.offset().min(text.len()))),
        Err(Stop::OutOfMemory) => Err(JsonFault::OutOfMemory),
    }
}

/// The document of the value that a JSON text is, whose root has this name (docs/FORMATS.md, "JSON files"). `NotUtf8` names
/// the first byte that is wrong, `NotJson` the place at which the reader stopped. Where the document has 4 GB of labels or
/// 4,294,967,295 nodes, it fails as where memory runs out.
pub fn read_json(alloc: Global, name: &Label, text: &[u8]) -> Result<Store, JsonFault>
    // The answer is that of the text: the document of its value, or why there is none.
    ensures answers { Answers text.now name.now result }

    // Its document can be given piece by piece.
    ensures shallow { IfOk result IsShallow }

    // A value is read, unless memory runs out.
    ensures only { (v : Json) → IsUtf8 text.now → document text.now ≡ Some v → MatchResult result
        (λ nodes. IsDocument nodes (value_tree name.now v)) (λ fault. fault ≡ JsonFault.OutOfMemory) }
{
    match str::from_utf8(text) {
        Ok(text) => read(alloc, name, text),
        Err(error) => Err(JsonFault::NotUtf8(error.valid_up_to())),
    }
}
