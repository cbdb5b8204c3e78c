// Why no line of a catalog says a source.
ghost use Rattle.std.specs.Prelude.{◌≡◌};
ghost use Rattle.mix_catalog.specs.Sources.{source_named};
ghost use Rattle.catalog_draft.specs.Reasons.{reason_text, unsaid_of};

use mix_catalog::SourceSpec;
use mix_tree::same_label;

/// Why no line of a catalog says a source.
#[derive(Clone, Copy, Debug, PartialEq, Eq)]
pub enum Unsaid {
    /// A column's name is not UTF-8.
    NotUtf8,
    /// The table is of a kind that is not read.
    NotRead,
    /// The table's name is no SQL name.
    Name,
    /// No name of the row's number is an SQL name.
    Key,
    /// No column can be named.
    NoColumns,
    /// There are more than 200 columns.
    ManyColumns,
    /// A column stands twice.
    ColumnTwice,
    /// A source before has the name.
    NameTwice,
    /// 32 sources stand before.
    TooMany,
}

/// The words for why no line says a source.
pub fn reason(why: Unsaid) -> &'static [u8]
    ensures { result.now ≡ reason_text why }
{
    match why {
        Unsaid::NotUtf8 => b"a column's name is not UTF-8",
        Unsaid::NotRead => b"it is of a kind that is not read",
        Unsaid::Name => b"a catalog names a table by letters, digits and _",
        Unsaid::Key => b"it has no key that a catalog can name",
        Unsaid::NoColumns => b"it has no column that a catalog can name",
        Unsaid::ManyColumns => b"a catalog names at most 200 columns",
        Unsaid::ColumnTwice => b"two columns have the same name",
        Unsaid::NameTwice => b"a line above has its name",
        Unsaid::TooMany => b"a catalog has at most 32 sources",
    }
}

// The place of the source that has the name of another, among some sources.
fn place_of_name(before: &[SourceSpec], source: &SourceSpec) -> Option<usize>
    ensures { result ≡ source_named before.now source.now.name }
{
    before
        .iter()
        .position(|other| same_label(&source.name, &other.name))
}

/// Why a source can't stand after others of a catalog, if so.
pub fn unsaid_of(before: &[SourceSpec], source: &SourceSpec) -> Option<Unsaid>
    ensures { result ≡ unsaid_of before.now source.now }
{
    let count = source.kind.column_count();
    if count == 0 {
        return Some(Unsaid::NoColumns);
    }
    if count > 200 {
        return Some(Unsaid::ManyColumns);
    }
    if !source.kind.has_columns_apart() {
        return Some(Unsaid::ColumnTwice);
    }
    if place_of_name(before, source).is_some() {
        return Some(Unsaid::NameTwice);
    }
    if before.len() >= 32 {
        return Some(Unsaid::TooMany);
    }
    None
}
