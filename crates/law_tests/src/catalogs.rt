// Catalogs: how many sources a text has, and as what they are kept, worked out by hand.
use crate::labels::{is_label, label};
use crate::made::{Numbered, numbered};
use crate::remotes::is_homes;
use crate::tables::is_people;
use mix_catalog::{Catalog, CatalogFault, SourceKind, SourceSpec, read_catalog};
use std::alloc::Global;

// How many sources a text has, or why it is no catalog.
fn count(alloc: Global, text: &[u8]) -> Result<u32, CatalogFault> {
    Ok(read_catalog(alloc, text)?.len())
}

// Texts, each with how many sources it has.
const COUNTS: &[(&[u8], u32)] = &[
    (b"", 0),
    (b"# \xff\n \t\n\n  #\r\n", 0),
    (
        b"source a bracket f chunk 1\r\n\t source  b\tbracket f chunk 2 deep \r\n",
        2,
    ),
    (b"source - bracket \"a \\\"b\" chunk 1", 1),
    (b"source a bracket f chunk 007", 1),
    (b"source a bracket f chunk 1000", 1),
    (
        b"source p csv f columns a chunk 1\n source\tq csv \"f g\"  columns \t b,\"c \",\"\" chunk 02 ",
        2,
    ),
    (
        b"source p table f people key id columns name,zip! chunk 2",
        1,
    ),
    (
        b"\tsource  p table \"my f\"  people\tkey id columns  a!,_b1,C chunk 007 \r\n",
        1,
    ),
    (b"source p table \"\" _ key _ columns _! chunk 1000", 1),
    (
        b"source p table f key key key columns key,columns,chunk chunk 1",
        1,
    ),
    (b"source p table f t key a columns a,A chunk 1", 1),
    (b"source h remote replies requests 0", 1),
    (
        b"\tsource  h remote \"my replies\"  \"my requests\"\t 000000007 \r\nsource k remote f f 999999999",
        2,
    ),
    (b"source remote remote \"\" remote 1", 1),
];

#[test]
fn sources_are_counted(rt: HostRuntime) {
    for (text, want) in COUNTS {
        assert!(rt; count(rt.alloc(), text) == Ok(*want));
    }
}

// How many sources the text of these parts has.
fn count_made(alloc: Global, parts: &Numbered, numbers: u32) -> Result<u32, CatalogFault> {
    count(alloc, numbered(alloc, parts, numbers)?.as_bytes())
}

// Texts of many sources or columns, each with how many sources it has.
const MANY: &[(Numbered, u32, u32)] = &[
    (["", "source s", " bracket f chunk 1\n", ""], 32, 32),
    (["source p csv f columns c1", ",c", "", " chunk 1"], 1, 1),
    (
        ["source p table f t key k columns a!", ",c", "", " chunk 1"],
        199,
        1,
    ),
];

#[test]
fn many_sources_and_columns_are_counted(rt: HostRuntime) {
    for (parts, numbers, want) in MANY {
        assert!(rt; count_made(rt.alloc(), parts, *numbers) == Ok(*want));
    }
}

// Whether a source is that of a bracket text, in this file and with this chunk.
fn is_bracket(source: &SourceSpec, file: &str, chunk: u32, is_deep: bool) -> bool {
    let SourceKind::Bracket { deep, .. } = &source.kind else {
        return false;
    };
    *deep == is_deep
        && is_label(source.kind.file(), file)
        && source.chunk == chunk
        && source.kind.column_count() == 0
}

// Whether a catalog has two sources of bracket texts.
fn has_both(catalog: &Catalog) -> bool {
    catalog.len() == 2
        && is_label(&catalog.spec(0).name, "a-1")
        && is_bracket(catalog.spec(0), "my homes\n", 7, false)
        && is_bracket(catalog.spec(1), "f", 1, true)
}

// Whether a source is that of a CSV file, in this file and with this chunk and these columns.
fn is_csv(source: &SourceSpec, file: &str, chunk: u32, names: [&str; 3]) -> bool {
    let SourceKind::Csv { columns, .. } = &source.kind else {
        return false;
    };
    let [first, second, third] = columns.as_slice() else {
        return false;
    };
    is_label(first, names[0])
        && is_label(second, names[1])
        && is_label(third, names[2])
        && is_label(source.kind.file(), file)
        && source.chunk == chunk
        && source.kind.column_count() == 3
}

// What a catalog may be kept as.
#[derive(Clone, Copy)]
enum Kept {
    Brackets,
    Csv,
    Table,
    Remote,
}

// Whether a catalog is kept so.
fn is_kept(catalog: &Catalog, kept: Kept) -> bool {
    match kept {
        Kept::Brackets => has_both(catalog),
        Kept::Csv => {
            catalog.len() == 1 && is_csv(catalog.spec(0), "f", 10, ["id", "na,me ", ""])
        }
        Kept::Table => catalog.len() == 1 && is_people(catalog.spec(0)),
        Kept::Remote => catalog.len() == 1 && is_homes(catalog.spec(0)),
    }
}

// Whether the catalog of a text is kept so.
fn keeps(alloc: Global, text: &[u8], kept: Kept) -> Result<bool, CatalogFault> {
    Ok(is_kept(&read_catalog(alloc, text)?, kept))
}

// Two sources of bracket texts.
const BOTH: &[u8] =
    b"source a-1 bracket \"my homes\\n\" chunk 007\nsource b bracket f chunk 1 deep";

// Texts, each with what it is kept as.
const KEPT: &[(&[u8], Kept)] = &[
    (BOTH, Kept::Brackets),
    (
        b"source p csv f columns id,\"na,me \",\"\" chunk 10",
        Kept::Csv,
    ),
    (
        b"source p table \"my people.db\" people key id columns name!,zip,_9! chunk 2",
        Kept::Table,
    ),
    (b"source h remote \"my replies\" requests 012", Kept::Remote),
];

#[test]
fn sources_are_kept_as_declared(rt: HostRuntime) {
    for (text, kept) in KEPT {
        assert!(rt; keeps(rt.alloc(), text, *kept) == Ok(true));
    }
}

// The number of a text's source of this name.
fn find(alloc: Global, text: &[u8], name: &str) -> Result<Option<u32>, CatalogFault> {
    let name = label(alloc, name)?;
    Ok(read_catalog(alloc, text)?.find(&name))
}

#[test]
fn sources_are_found_by_their_names(rt: HostRuntime) {
    assert!(rt; find(rt.alloc(), BOTH, "a-1") == Ok(Some(0)));
    assert!(rt; find(rt.alloc(), BOTH, "b") == Ok(Some(1)));
    assert!(rt; find(rt.alloc(), BOTH, "a") == Ok(None));
}
