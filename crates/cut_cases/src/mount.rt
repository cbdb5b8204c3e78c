// The documents of a case's catalog, mounted: of files and of tables that the case has.
use crate::setting::catalog_of;
use bracket_text::read_document;
use bracket_wrap::BracketDoc;
use case_text::{Fault, Part, numbers, tables_of};
use csv_wrap::CsvDoc;
use json_text::read_json;
use mix_catalog::{Catalog, SourceKind, SourceSpec};
use mix_mount::{Mount, Mounted};
use mix_tree::Label;
use std::alloc::Global;
use table_keep::MemTables;
use table_wrap::TableDoc;

// The bytes of a case's file, where it has one of that path.
fn file<'p>(parts: &'p [Part<'_>], path: &Label) -> Option<&'p [u8]> {
    let part = parts.iter().find(|part| part.word == "file"
        && part.rest.as_bytes() == path.bytes())?;
    Some(&part.bytes)
}

// A bracket document of a text.
fn bracket(alloc: Global, text: &[u8], chunk: u32, deep: bool) -> Result<Mount, Fault> {
    let Ok(nodes) = read_document(alloc, text) else {
        return Err(Fault::Form);
    };
    if chunk == 0 || chunk > 1000 {
        return Err(Fault::Form);
    }
    Ok(Mount::Bracket(BracketDoc::open(nodes, chunk, deep)))
}

// A JSON document of a text.
fn json(alloc: Global, text: &[u8], spec: &SourceSpec) -> Result<Mount, Fault> {
    let Ok(nodes) = read_json(alloc, &spec.name, text) else {
        return Err(Fault::Form);
    };
    if spec.chunk == 0 || spec.chunk > 1000 {
        return Err(Fault::Form);
    }
    Ok(Mount::Bracket(BracketDoc::open(nodes, spec.chunk, false)))
}

// A CSV document of a text.
fn csv(alloc: Global, text: &[u8], spec: &SourceSpec, columns: &[Label]) -> Result<Mount, Fault> {
    if spec.chunk == 0 || spec.chunk > 1000 {
        return Err(Fault::Form);
    }
    let doc = CsvDoc::open(alloc, text, &spec.name, columns, spec.chunk);
    Ok(Mount::Csv(doc.ok().ok_or(Fault::Form)?))
}

// The document of a table.
fn table(alloc: Global, spec: &SourceSpec) -> Result<Mount, Fault> {
    if spec.chunk == 0 || spec.chunk > 1000 {
        return Err(Fault::Form);
    }
    match &spec.kind {
        SourceKind::Table { .. } => Ok(Mount::Table(TableDoc::open(alloc, spec)?)),
        _ => Err(Fault::Form),
    }
}

// What is mounted for a source: nothing, where the case has no file of its path, nor for a source of another machine.
fn mount(alloc: Global, parts: &[Part<'_>], spec: &SourceSpec) -> Result<Mount, Fault> {
    match &spec.kind {
        SourceKind::Table { .. } => table(alloc, spec),
        SourceKind::Bracket { file: path, deep } => match file(parts, path) {
            Some(text) => bracket(alloc, text, spec.chunk, *deep),
            None => Ok(Mount::Absent),
        },
        SourceKind::Csv {
            file: path,
            columns,
        } => match file(parts, path) {
            Some(text) => csv(alloc, text, spec, columns.as_slice()),
            None => Ok(Mount::Absent),
        },
        SourceKind::Json { file: path } => match file(parts, path) {
            Some(text) => json(alloc, text, spec),
            None => Ok(Mount::Absent),
        },
        SourceKind::Remote { .. } | SourceKind::View { .. } => Ok(Mount::Absent),
    }
}

// What is mounted for each source of a catalog.
fn mounts(alloc: Global, parts: &[Part<'_>], catalog: &Catalog) -> Result<Vec<Mount>, Fault> {
    let mut mounts = Vec::new(alloc);
    for number in 0..catalog.len() {
        mounts.push(mount(alloc, parts, catalog.spec(number))?)?;
    }
    Ok(mounts)
}

/// The documents of a case's catalog as sources.
pub fn mounted(alloc: Global, parts: &[Part<'_>]) -> Result<Mounted<MemTables>, Fault> {
    let catalog = catalog_of(alloc, parts)?;
    let mounts = mounts(alloc, parts, &catalog)?;
    if mounts.len() > 32 {
        return Err(Fault::Form);
    }
    let tables = tables_of(alloc, parts, numbers(alloc, parts, "pages")?)?;
    Ok(Mounted::new(mounts, tables))
}
