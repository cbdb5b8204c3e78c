// The parts that a case of a command may have.
use case_text::Form;
use case_text::Shape::{Nothing, Pieces, Words, WordsAndPieces};
use case_text::Times::{Often, Once, OnceEach};

/// The parts that a case of a command may have.
pub const FORMS: [Form; 20] = [
    Form("with", Words, OnceEach),
    Form("words", Words, Once),
    Form("file", WordsAndPieces, OnceEach),
    Form("input", WordsAndPieces, Once),
    Form("table", Words, Once),
    Form("row", Words, Often),
    Form("schema", WordsAndPieces, OnceEach),
    Form("far", WordsAndPieces, Often),
    Form("reads", Words, Once),
    Form("takes", Words, Once),
    Form("writes", Words, Once),
    Form("pages", Words, Once),
    Form("status", Words, Once),
    Form("lines", Pieces, Once),
    Form("asked", Words, Once),
    Form("each-read", Words, Once),
    Form("each-take", Words, Once),
    Form("each-write", Nothing, Once),
    Form("prefixes", Words, Once),
    Form("pairs", WordsAndPieces, Once),
];
