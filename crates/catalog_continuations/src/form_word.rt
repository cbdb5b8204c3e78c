// The words of which the forms of a catalog's line are made: each with a spelling that is tried, and its name for people.
ghost use Rattle.std.specs.Prelude.{◌≡◌};
ghost use Rattle.catalog_continuations.specs.Words.{name_of, spelling_of};

/// A word of a form, or the end of a line.
#[derive(Clone, Copy, Debug, PartialEq, Eq)]
pub enum FormWord {
    Source,
    /// A name for the source.
    Name,
    Bracket,
    Csv,
    Table,
    Remote,
    Json,
    View,
    /// A file.
    File,
    /// The file of requests to another machine.
    Requests,
    /// The name of a table.
    TableName,
    KeyWord,
    /// The name of a table's key.
    Key,
    ColumnsWord,
    /// The columns of a CSV file.
    Columns,
    /// The columns of a table.
    TableColumns,
    Chunk,
    Number,
    Deep,
    /// The end of the line.
    End,
}

impl FormWord {
    /// A spelling of the word; that of the end is empty.
    pub fn spelling(self) -> &'static str
        ensures { result.now ≡ spelling_of self }
    {
        match self {
            FormWord::Source => "source",
            FormWord::Name => "x",
            FormWord::Bracket => "bracket",
            FormWord::Csv => "csv",
            FormWord::Table => "table",
            FormWord::Remote => "remote",
            FormWord::Json => "json",
            FormWord::View => "view",
            FormWord::File => "f",
            FormWord::Requests => "g",
            FormWord::TableName => "t",
            FormWord::KeyWord => "key",
            FormWord::Key => "k",
            FormWord::ColumnsWord => "columns",
            FormWord::Columns => "a",
            FormWord::TableColumns => "a",
            FormWord::Chunk => "chunk",
            FormWord::Number => "1",
            FormWord::Deep => "deep",
            FormWord::End => "",
        }
    }

    /// The word's name for people.
    pub fn name(self) -> &'static str
        ensures { result.now ≡ name_of self }
    {
        match self {
            FormWord::Source => "source",
            FormWord::Name => "a name for the source",
            FormWord::Bracket => "bracket",
            FormWord::Csv => "csv",
            FormWord::Table => "table",
            FormWord::Remote => "remote",
            FormWord::Json => "json",
            FormWord::View => "view",
            FormWord::File => "a file",
            FormWord::Requests => "the file of requests",
            FormWord::TableName => "the name of a table",
            FormWord::KeyWord => "key",
            FormWord::Key => "the name of the key",
            FormWord::ColumnsWord => "columns",
            FormWord::Columns | FormWord::TableColumns => {
                "the names of columns, with commas and no blanks between them"
            }
            FormWord::Chunk => "chunk",
            FormWord::Number => "a number",
            FormWord::Deep => "deep",
            FormWord::End => "the end of the line",
        }
    }
}
