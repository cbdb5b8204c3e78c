//! Tokens of rules: how they are written, what is kept of one while it is read byte by byte, and what the text of one says.
#![tactic(auto)]

mod lexeme;
mod lexer;
mod token;

pub use lexeme::{Comparison, Lexeme, PathLimit, PathText, read_lexeme};
pub use lexer::{Part, ended_kind, is_blank_byte, next_part};
pub use token::{Kind, Mark, Sign};
