// The parts that a case of documents in pieces may have.
use case_text::Form;
use case_text::Shape::{Nothing, Pieces, Words, WordsAndPieces};
use case_text::Times::{Often, Once, OnceEach};

/// The parts that a case of documents in pieces may have.
pub const FORMS: [Form; 22] = [
    Form("with", Words, OnceEach),
    Form("catalog", Pieces, Once),
    Form("view", Pieces, Once),
    Form("doc", Pieces, Often),
    Form("file", WordsAndPieces, OnceEach),
    Form("table", Words, Once),
    Form("row", Words, Often),
    Form("choices", Words, Once),
    Form("forward", Nothing, Once),
    Form("fails", Words, Once),
    Form("pages", Words, Once),
    Form("writes", Words, Once),
    Form("script", Pieces, Once),
    Form("lines", Pieces, Once),
    Form("plain", Pieces, Once),
    Form("gives", Pieces, Once),
    Form("fills", Words, Once),
    Form("at-least", Words, Once),
    Form("at-most", Words, Once),
    Form("asked", Words, Once),
    Form("rows", Words, Once),
    Form("each-fill", Nothing, Once),
];
