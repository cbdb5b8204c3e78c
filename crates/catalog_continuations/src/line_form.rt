// The forms of a catalog's line, word by word.
ghost use Rattle.std.specs.Prelude.{◌≡◌};
ghost use Rattle.catalog_continuations.specs.Forms.{word_of, words_in};

use crate::FormWord;

/// A form of a line. That of a file of bracket text is one with `deep` and one without.
#[derive(Clone, Copy, Debug, PartialEq, Eq)]
pub enum LineForm {
    DeepBracket,
    Bracket,
    Csv,
    Table,
    Remote,
    Json,
    View,
}

/// The forms of a line.
pub const FORMS: &[LineForm] = &[
    LineForm::DeepBracket,
    LineForm::Bracket,
    LineForm::Csv,
    LineForm::Table,
    LineForm::Remote,
    LineForm::Json,
    LineForm::View,
];

// The words of a file of bracket text whose children come whole.
const DEEP_BRACKET: &[FormWord] = &[
    FormWord::Source,
    FormWord::Name,
    FormWord::Bracket,
    FormWord::File,
    FormWord::Chunk,
    FormWord::Number,
    FormWord::Deep,
];

// The words of a file of bracket text.
const BRACKET: &[FormWord] = &[
    FormWord::Source,
    FormWord::Name,
    FormWord::Bracket,
    FormWord::File,
    FormWord::Chunk,
    FormWord::Number,
];

// The words of a CSV file.
const CSV: &[FormWord] = &[
    FormWord::Source,
    FormWord::Name,
    FormWord::Csv,
    FormWord::File,
    FormWord::ColumnsWord,
    FormWord::Columns,
    FormWord::Chunk,
    FormWord::Number,
];

// The words of a table.
const TABLE: &[FormWord] = &[
    FormWord::Source,
    FormWord::Name,
    FormWord::Table,
    FormWord::File,
    FormWord::TableName,
    FormWord::KeyWord,
    FormWord::Key,
    FormWord::ColumnsWord,
    FormWord::TableColumns,
    FormWord::Chunk,
    FormWord::Number,
];

// The words of a source of another machine.
const REMOTE: &[FormWord] = &[
    FormWord::Source,
    FormWord::Name,
    FormWord::Remote,
    FormWord::File,
    FormWord::Requests,
    FormWord::Number,
];

// The words of a JSON file.
const JSON: &[FormWord] = &[
    FormWord::Source,
    FormWord::Name,
    FormWord::Json,
    FormWord::File,
    FormWord::Chunk,
    FormWord::Number,
];

// The words of a view.
const VIEW: &[FormWord] = &[
    FormWord::Source,
    FormWord::Name,
    FormWord::View,
    FormWord::File,
];

impl LineForm {
    /// The words of the form.
    pub fn words(self) -> &'static [FormWord]
        ensures { result.now ≡ words_in self }
    {
        match self {
            LineForm::DeepBracket => DEEP_BRACKET,
            LineForm::Bracket => BRACKET,
            LineForm::Csv => CSV,
            LineForm::Table => TABLE,
            LineForm::Remote => REMOTE,
            LineForm::Json => JSON,
            LineForm::View => VIEW,
        }
    }

    /// The word that names the form.
    pub fn word(self) -> FormWord
        ensures { result ≡ word_of self }
    {
        match self {
            LineForm::DeepBracket | LineForm::Bracket => FormWord::Bracket,
            LineForm::Csv => FormWord::Csv,
            LineForm::Table => FormWord::Table,
            LineForm::Remote => FormWord::Remote,
            LineForm::Json => FormWord::Json,
            LineForm::View => FormWord::View,
        }
    }
}
