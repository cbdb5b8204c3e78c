// Catalogs are read line by line; a line that is not passed over spells a source.
ghost use Rattle.std.specs.Prelude.{◌≡◌, ◌++◌, ◌∷◌, [], List, Result, IfErr, OnOk};
ghost use Rattle.mix_catalog.specs.declared.source.SourceSpec.{SourceSpec};
ghost use Rattle.mix_catalog.specs.declared.fault.CatalogFault.{CatalogFault};
ghost use Rattle.mix_tree.specs.Names.{IsName};
ghost use Rattle.mix_catalog.specs.Sources.{IsInPlace, IsTakenBy, RefusesSource, Adds, IsFault, Answers, SameAnswer};

use crate::line::read_source;
use crate::{Catalog, CatalogFault, SourceSpec};
use mix_words::lines::{cut_lines, is_passed_over};
use std::alloc::Global;

// The most sources that a catalog may have.
const SOURCES: u32 = 32;

// The most children that a fill may be asked to give.
const CHUNK: u32 = 1000;

// The most columns of a source.
const COLUMNS: usize = 200;

// Whether the catalog takes the source of a line.
fn check_source(catalog: &Catalog, source: &SourceSpec, number: usize) -> Result<(), CatalogFault>
    ensures ok { OnOk result (IsTakenBy catalog.now source.now) }
    ensures err { IfErr result (RefusesSource catalog.now source.now number) }
{
    if source.chunk < 1 || source.chunk > CHUNK {
        return Err(CatalogFault::Chunk(number));
    }
    if source.kind.column_count() > COLUMNS {
        return Err(CatalogFault::Columns(number));
    }
    if !source.kind.has_columns_apart() {
        return Err(CatalogFault::ColumnTwice(number));
    }
    if catalog.find(&source.name).is_some() {
        return Err(CatalogFault::NameTwice(number));
    }
    if catalog.len() >= SOURCES {
        return Err(CatalogFault::TooMany(number));
    }
    Ok(())
}

// Adds the source of a line, where the catalog takes it.
fn add_source(
    alloc: Global,
    catalog: &mut Catalog,
    source: SourceSpec,
    number: usize,
) -> Result<(), CatalogFault>
    requires named { IsName source.name }
    requires place { IsInPlace catalog.old source }
    ensures ok { OnOk result (IsTakenBy catalog.old source × (catalog.new ≡ catalog.old ++ source ∷ [])) }
    ensures err { IfErr result (RefusesSource catalog.old source number) }
{
    match check_source(catalog, &source, number) {
        Ok(()) => Ok(catalog.add(alloc, source)?),
        Err(fault) => {
            // The source is given to `drop`, so that how its parts are dropped is proved once.
            drop(source);
            Err(fault)
        }
    }
}

// Adds the source of a line, unless the line is passed over.
fn add_line(
    alloc: Global,
    catalog: &mut Catalog,
    line: &[u8],
    number: usize,
) -> Result<(), CatalogFault>
    ensures ok { OnOk result (Adds catalog.old line.now catalog.new) }
    ensures err { IfErr result (IsFault catalog.old line.now number) }
{
    if is_passed_over(line) {
        return Ok(());
    }
    let Some(source) = read_source(alloc, line)? else {
        return Err(CatalogFault::Line(number));
    };
    if !source.kind.is_view() && catalog.has_view() {
        drop(source);
        return Err(CatalogFault::Line(number));
    }
    add_source(alloc, catalog, source, number)
}

/// The catalog that a text spells (docs/FORMATS.md, "Catalogs").
///
/// # Errors
///
/// The first line that is not accepted decides, and of the causes that it has, the first of these: `Line`, `Chunk`,
/// `Columns`, `ColumnTwice`, `NameTwice`, `TooMany`, each with the line's number. A source that is no view fits no
/// line after one. `OutOfMemory` can come with any text.
pub fn read_catalog(alloc: Global, text: &[u8]) -> Result<Catalog, CatalogFault>
    // The answer is that of the text: its sources, or why it is no catalog.
    ensures answers { Answers text.now result }

    // No other answer is that of the text, but for want of memory.
    ensures only { (other : Result (List SourceSpec) CatalogFault) → Answers text.now other → SameAnswer result other }
{
    let lines = cut_lines(alloc, text)?;
    let mut catalog = Catalog::new(alloc);
    for (before, line) in lines.iter().enumerate() {
        add_line(alloc, &mut catalog, line, before + 1)?;
    }
    Ok(catalog)
}
