// What a catalog says of a source.
ghost use Rattle.std.specs.Prelude.{◌≡◌, length, IfOk};
ghost use Rattle.mix_catalog.specs.Columns.{are_apart};
ghost use Rattle.mix_catalog.specs.Grammar.{columns_of, file_of, is_view};

use crate::column::{are_named_apart, copy_columns, copy_names};
use crate::columns::are_apart;
use crate::{ColumnNames, TableColumns};
use mix_tree::Label;
use std::alloc::{AllocError, Global};

/// A source of a catalog.
#[derive(Drop)]
pub struct SourceSpec {
    /// The source's name.
    pub name: Label,
    /// The most children that a fill of the source gives; 1 for a view, and for a remote source, whose lists the other side cuts.
    pub chunk: u32,
    /// What the source is.
    pub kind: SourceKind,
}

/// What a source is.
#[derive(Drop)]
pub enum SourceKind {
    /// A file of bracket text. A deep one gives each child whole.
    Bracket {
        file: Label,
        deep: bool,
    },
    /// A CSV file with these columns. A fill gives whole rows.
    Csv {
        file: Label,
        columns: ColumnNames,
    },
    /// A table of an SQLite file, read by a key column. A fill gives whole rows of these columns.
    Table {
        file: Label,
        table: Label,
        key: Label,
        columns: TableColumns,
    },
    /// A source of another machine, behind two files: replies are read from the one, requests are written to the other. `number` is
    /// that of the source among those of the server behind the files, from 0.
    Remote {
        replies: Label,
        requests: Label,
        number: u32,
    },
    /// A JSON file. A fill gives some children of a node.
    Json {
        file: Label,
    },
    /// A view in a file, over the catalog's sources of the other kinds. A fill gives one node.
    View {
        file: Label,
    },
}

impl SourceSpec {
    /// A copy of what is said of the source.
    pub(crate) fn copy(&self, alloc: Global) -> Result<SourceSpec, AllocError>
        ensures { IfOk result (λ s. s ≡ self.now) }
    {
        Ok(SourceSpec {
            name: self.name.copy(alloc)?,
            chunk: self.chunk,
            kind: self.kind.copy(alloc)?,
        })
    }
}

impl SourceKind {
    // A copy of what the source is.
    fn copy(&self, alloc: Global) -> Result<SourceKind, AllocError>
        ensures { IfOk result (λ k. k ≡ self.now) }
    {
        match self {
            SourceKind::Bracket { file, deep } => Ok(SourceKind::Bracket {
                file: file.copy(alloc)?,
                deep: *deep,
            }),
            SourceKind::Csv { file, columns } => Ok(SourceKind::Csv {
                file: file.copy(alloc)?,
                columns: copy_names(alloc, columns)?,
            }),
            SourceKind::Table {
                file,
                table,
                key,
                columns,
            } => Ok(SourceKind::Table {
                file: file.copy(alloc)?,
                table: table.copy(alloc)?,
                key: key.copy(alloc)?,
                columns: copy_columns(alloc, columns)?,
            }),
            SourceKind::Remote {
                replies,
                requests,
                number,
            } => Ok(SourceKind::Remote {
                replies: replies.copy(alloc)?,
                requests: requests.copy(alloc)?,
                number: *number,
            }),
            SourceKind::Json { file } => Ok(SourceKind::Json {
                file: file.copy(alloc)?,
            }),
            SourceKind::View { file } => Ok(SourceKind::View {
                file: file.copy(alloc)?,
            }),
        }
    }

    /// The path of the source's file; of a remote source it is the file of replies.
    pub fn file(&self) -> &Label
        ensures { result.now ≡ file_of self.now }
    {
        match self {
            SourceKind::Bracket { file, .. } => file,
            SourceKind::Csv { file, .. } => file,
            SourceKind::Table { file, .. } => file,
            SourceKind::Remote { replies, .. } => replies,
            SourceKind::Json { file } => file,
            SourceKind::View { file } => file,
        }
    }

    /// Whether the source is a view.
    pub fn is_view(&self) -> bool
        ensures { result ≡ is_view self.now }
    {
        matches!(self, SourceKind::View { .. })
    }

    /// How many columns the source has; only CSV sources and tables have some.
    pub fn column_count(&self) -> usize
        ensures { result ≡ length (columns_of self.now) }
    {
        match self {
            SourceKind::Bracket { .. } => 0,
            SourceKind::Csv { columns, .. } => columns.as_slice().len(),
            SourceKind::Table { columns, .. } => columns.as_slice().len(),
            SourceKind::Remote { .. } | SourceKind::Json { .. } | SourceKind::View { .. } => 0,
        }
    }

    /// Whether no two columns of the source have the same name, byte for byte.
    pub fn has_columns_apart(&self) -> bool
        ensures { result ≡ are_apart (columns_of self.now) }
    {
        match self {
            SourceKind::Bracket { .. } => true,
            SourceKind::Csv { columns, .. } => are_apart(columns.as_slice()),
            SourceKind::Table { columns, .. } => are_named_apart(columns.as_slice()),
            SourceKind::Remote { .. } | SourceKind::Json { .. } | SourceKind::View { .. } => true,
        }
    }
}
