// A value of a JSON text, whose nodes are put in where its tokens are met.
ghost use Rattle.std.specs.Prelude.{◌≡◌, ◌≢◌, ◌<◌, ◌∷◌, ◌++◌, length, Some, None, Err, OnOk};
ghost use Rattle.std.specs.Str.{IsUtf8};
ghost use Rattle.mix_tree.specs.Forest.{alone};
ghost use Rattle.document_store.specs.Laid.{bare_node, laid};
ghost use Rattle.json.specs.Json.{Items, Json, Members, items, members, value};
ghost use Rattle.json_text.specs.Trees.{items_trees, members_trees, value_tree, value_trees};

use crate::stop::Stop;
use document_store::Store;
use json::{Reader, Token};

// What an array's members are called.
const ITEM: &[u8] = b"item";

// Puts in a node without children.
#[inline]
fn push(store: &mut Store, label: &[u8]) -> Result<(), Stop>
    requires { IsUtf8 label.now }
    ensures ok { OnOk result (store.new ≡ bare_node label.now ∷ store.old) }
    ensures never_refused { result ≢ Err Stop.NotJson }
{
    store.push(label)?;
    Ok(())
}

/// Reads a value, whose arrays and objects may nest so deep, and puts in the trees that stand for it.
#[cycle(read)]
fn read_value(reader: &mut Reader, store: &mut Store, depth: usize) -> Result<(), Stop>
    ensures ok { OnOk result ((v : Json) × (value depth reader.old ≡ Some (v, reader.new))
        × (store.new ≡ laid (value_trees v) ++ store.old)) }
    ensures shorter { OnOk result (length reader.new < length reader.old) }
    ensures refused { result ≡ Err Stop.NotJson → value depth reader.old ≡ None }
{
    match reader.next().ok_or(Stop::NotJson)? {
        Token::String(text) => push(store, text.as_bytes()),
        Token::Number(text) => push(store, text.as_bytes()),
        Token::Bool(true) => push(store, b"true"),
        Token::Bool(false) => push(store, b"false"),
        Token::Null => Ok(()),
        Token::BeginArray if depth > 0 => read_items(reader, store, depth - 1),
        Token::BeginObject if depth > 0 => read_members(reader, store, depth - 1),
        Token::BeginArray | Token::BeginObject => Err(Stop::NotJson),
        Token::EndArray | Token::EndObject | Token::Key(_) | Token::Bad => Err(Stop::NotJson),
    }
}

/// Reads a value as `read_value` does, and puts in its tree of this label.
#[cycle(read)]
pub fn read_labelled(
    reader: &mut Reader,
    store: &mut Store,
    label: &[u8],
    depth: usize,
) -> Result<(), Stop>
    requires { IsUtf8 label.now }
    ensures ok { OnOk result ((v : Json) × (value depth reader.old ≡ Some (v, reader.new))
        × (store.new ≡ laid (alone (value_tree label.now v)) ++ store.old)) }
    ensures shorter { OnOk result (length reader.new < length reader.old) }
    ensures refused { result ≡ Err Stop.NotJson → value depth reader.old ≡ None }
{
    let place = store.len();
    push(store, label)?;
    read_value(reader, store, depth)?;
    store.close(place);
    Ok(())
}

// Reads the items of an array up to its end, and puts in their trees.
#[cycle(read)]
fn read_items(reader: &mut Reader, store: &mut Store, depth: usize) -> Result<(), Stop>
    ensures ok { OnOk result ((js : Items) × (items (value depth) (length reader.old) reader.old ≡ Some (js, reader.new))
        × (store.new ≡ laid (items_trees js) ++ store.old)) }
    ensures shorter { OnOk result (length reader.new < length reader.old) }
    ensures refused { result ≡ Err Stop.NotJson → items (value depth) (length reader.old) reader.old ≡ None }
{
    while !reader.take_end_array() {
        read_labelled(reader, store, ITEM, depth)?;
    }
    Ok(())
}

// Reads the members of an object up to its end, and puts in their trees.
#[cycle(read)]
fn read_members(reader: &mut Reader, store: &mut Store, depth: usize) -> Result<(), Stop>
    ensures ok { OnOk result ((ms : Members) × (members (value depth) (length reader.old) reader.old ≡ Some (ms, reader.new))
        × (store.new ≡ laid (members_trees ms) ++ store.old)) }
    ensures shorter { OnOk result (length reader.new < length reader.old) }
    ensures refused { result ≡ Err Stop.NotJson → members (value depth) (length reader.old) reader.old ≡ None }
{
    while let Some(name) = reader.next_key()? {
        read_labelled(reader, store, name.as_bytes(), depth)?;
    }
    Ok(())
}
