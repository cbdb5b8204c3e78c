// What stands after the file of a line: how its source is cut, and its columns, or which of another machine's sources it is.
ghost use Rattle.std.specs.Prelude.{◌≡◌, IfOk, IsUtf8};
ghost use Rattle.mix_words.specs.Words.{words_of};
ghost use Rattle.mix_catalog.specs.declared.form.Form.TheVariants.{Bracket, Csv, Table, Remote, Json, View};
ghost use Rattle.mix_catalog.specs.Forms.{chunk_after, is_columns_word};
ghost use Rattle.mix_catalog.specs.Seen.{form_after, source_after};

use crate::columns::{Columns, read_columns};
use crate::form::{Cutting, Form, Prefix, is_columns_word, is_word_end, read_chunk, read_cutting};
use crate::remote::{RemoteAfter, read_remote_after};
use crate::table::{TableAfter, read_table_after};
use crate::{ColumnNames, SourceKind, SourceSpec};
use mix_tree::Label;
use mix_words::places::word_place;
use mix_words::words::cut_words;
use std::alloc::{AllocError, Global};

// The bracket source of what stands after its file.
fn read_bracket(
    alloc: Global,
    name: Label,
    file: Label,
    after: &[u8],
) -> Result<Option<SourceSpec>, AllocError>
    ensures { IfOk result (λ found. found ≡ form_after Bracket name file after.now) }
{
    let words = cut_words(alloc, after)?;
    let Some(Cutting { chunk, deep }) = read_cutting(&words) else {
        return Ok(None);
    };
    let kind = SourceKind::Bracket { file, deep };
    Ok(Some(SourceSpec { name, chunk, kind }))
}

// Whether the only word before the columns is `columns`.
fn says_columns(alloc: Global, prefix: &[u8]) -> Result<bool, AllocError>
    ensures { IfOk result (λ says. says ≡ is_columns_word (words_of prefix.now)) }
{
    let words = cut_words(alloc, prefix)?;
    Ok(is_columns_word(&words))
}

// The chunk that the words after the columns give.
fn read_chunk_after(alloc: Global, after: &[u8]) -> Result<Option<u32>, AllocError>
    ensures { IfOk result (λ chunk. chunk ≡ chunk_after after.now) }
{
    if !is_word_end(after) {
        return Ok(None);
    }
    let words = cut_words(alloc, after)?;
    Ok(read_chunk(&words))
}

// The CSV source of what stands after its file.
fn read_csv(
    alloc: Global,
    name: Label,
    file: Label,
    after: &[u8],
) -> Result<Option<SourceSpec>, AllocError>
    requires { IsUtf8 after.now }
    ensures { IfOk result (λ found. found ≡ form_after Csv name file after.now) }
{
    let Some(at) = word_place(after, 1) else {
        return Ok(None);
    };
    if !says_columns(alloc, &after[..at])? {
        return Ok(None);
    }
    let Some(Columns { labels, end }) = read_columns(alloc, after, at)? else {
        return Ok(None);
    };
    let Some(chunk) = read_chunk_after(alloc, &after[end..])? else {
        return Ok(None);
    };
    let columns = ColumnNames::new(labels);
    let kind = SourceKind::Csv { file, columns };
    Ok(Some(SourceSpec { name, chunk, kind }))
}

// The table source of what stands after its file.
fn read_table(
    alloc: Global,
    name: Label,
    file: Label,
    after: &[u8],
) -> Result<Option<SourceSpec>, AllocError>
    ensures { IfOk result (λ found. found ≡ form_after Table name file after.now) }
{
    let words = cut_words(alloc, after)?;
    let Some(found) = read_table_after(alloc, &words)? else {
        return Ok(None);
    };
    let TableAfter {
        table,
        key,
        columns,
        chunk,
    } = found;
    let kind = SourceKind::Table {
        file,
        table,
        key,
        columns,
    };
    Ok(Some(SourceSpec { name, chunk, kind }))
}

// The remote source of what stands after the file of its replies.
fn read_remote(
    alloc: Global,
    name: Label,
    replies: Label,
    after: &[u8],
) -> Result<Option<SourceSpec>, AllocError>
    requires { IsUtf8 after.now }
    ensures { IfOk result (λ found. found ≡ form_after Remote name replies after.now) }
{
    let Some(RemoteAfter { requests, number }) = read_remote_after(alloc, after)? else {
        return Ok(None);
    };
    let kind = SourceKind::Remote {
        replies,
        requests,
        number,
    };
    Ok(Some(SourceSpec {
        name,
        chunk: 1,
        kind,
    }))
}

// The JSON source of what stands after its file.
fn read_json(
    alloc: Global,
    name: Label,
    file: Label,
    after: &[u8],
) -> Result<Option<SourceSpec>, AllocError>
    ensures { IfOk result (λ found. found ≡ form_after Json name file after.now) }
{
    let words = cut_words(alloc, after)?;
    let Some(chunk) = read_chunk(&words) else {
        return Ok(None);
    };
    let kind = SourceKind::Json { file };
    Ok(Some(SourceSpec { name, chunk, kind }))
}

// The view of what stands after its file, which is nothing.
fn read_view(
    alloc: Global,
    name: Label,
    file: Label,
    after: &[u8],
) -> Result<Option<SourceSpec>, AllocError>
    ensures { IfOk result (λ found. found ≡ form_after View name file after.now) }
{
    let words = cut_words(alloc, after)?;
    if !words.is_empty() {
        return Ok(None);
    }
    let kind = SourceKind::View { file };
    Ok(Some(SourceSpec {
        name,
        chunk: 1,
        kind,
    }))
}

/// The source of what stands before a file, of the file, and of what stands after it; `None` where that fits no form.
pub fn read_after(
    alloc: Global,
    prefix: Prefix,
    file: Label,
    after: &[u8],
) -> Result<Option<SourceSpec>, AllocError>
    requires { IsUtf8 after.now }
    ensures { IfOk result (λ found. found ≡ source_after prefix file after.now) }
{
    if !is_word_end(after) {
        return Ok(None);
    }
    match prefix.form {
        Form::Bracket => read_bracket(alloc, prefix.name, file, after),
        Form::Csv => read_csv(alloc, prefix.name, file, after),
        Form::Table => read_table(alloc, prefix.name, file, after),
        Form::Remote => read_remote(alloc, prefix.name, file, after),
        Form::Json => read_json(alloc, prefix.name, file, after),
        Form::View => read_view(alloc, prefix.name, file, after),
    }
}
