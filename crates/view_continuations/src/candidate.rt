// What may stand at a place of a view's text: each candidate with a spelling that is tried, and its name for people.
ghost use Rattle.std.specs.Prelude.{◌≡◌, Some, None, MatchOption};
ghost use Rattle.view_continuations.specs.Candidates.{begins_word, name_of, spelling_of};

/// A word, a sign or a kind of token that may stand at a place of a view's text.
#[derive(Clone, Copy, Debug, PartialEq, Eq)]
pub enum Candidate {
    Construct,
    Where,
    And,
    Order,
    By,
    Desc,
    /// `label` and a variable.
    LabelOf,
    Variable,
    /// A label between quotes.
    Quoted,
    /// A name: of a source, of an element, or in a path.
    Name,
    OpenTag,
    CloseTag,
    /// The bracket that ends a tag.
    TagEnd,
    OpenBrace,
    CloseBrace,
    Comma,
    /// A comparison and its right side.
    Comparison,
    /// A further step of a path.
    Dot,
    /// Another choice of a path.
    Bar,
    /// A mark that repeats a step of a path.
    Repeat,
    OpenParenthesis,
    CloseParenthesis,
    /// The quote that ends a label.
    LabelEnd,
    /// What stands after a backslash in a label.
    Escape,
    /// The end of the text.
    End,
}

/// The candidates that are tried outside of labels between quotes.
pub const TOKENS: &[Candidate] = &[
    Candidate::Construct,
    Candidate::Where,
    Candidate::And,
    Candidate::Order,
    Candidate::By,
    Candidate::Desc,
    Candidate::Variable,
    Candidate::Quoted,
    Candidate::LabelOf,
    Candidate::Name,
    Candidate::OpenTag,
    Candidate::CloseTag,
    Candidate::TagEnd,
    Candidate::OpenBrace,
    Candidate::CloseBrace,
    Candidate::Comma,
    Candidate::Comparison,
    Candidate::Dot,
    Candidate::Bar,
    Candidate::Repeat,
    Candidate::OpenParenthesis,
    Candidate::CloseParenthesis,
    Candidate::End,
];

impl Candidate {
    /// A spelling of the candidate, which is tried; the end has none.
    pub fn spelling(self) -> Option<&'static str>
        ensures { MatchOption result (spelling_of self ≡ None) (λ spelling. spelling_of self ≡ Some spelling.now) }
    {
        let spelling = match self {
            Candidate::Construct => "CONSTRUCT",
            Candidate::Where => "WHERE",
            Candidate::And => "AND",
            Candidate::Order => "ORDER",
            Candidate::By => "BY",
            Candidate::Desc => "DESC",
            Candidate::LabelOf => "label $x",
            Candidate::Variable => "$x",
            Candidate::Quoted => "\"x\"",
            Candidate::Name => "x",
            Candidate::OpenTag => "<x>",
            Candidate::CloseTag => "</x>",
            Candidate::TagEnd => ">",
            Candidate::OpenBrace => "{",
            Candidate::CloseBrace => "}",
            Candidate::Comma => ",",
            Candidate::Comparison => "=$x",
            Candidate::Dot => ".x",
            Candidate::Bar => "|x",
            Candidate::Repeat => "*",
            Candidate::OpenParenthesis => "(x",
            Candidate::CloseParenthesis => ")",
            Candidate::LabelEnd => "\"",
            Candidate::Escape => "n",
            Candidate::End => return None,
        };
        Some(spelling)
    }

    /// The candidate's name, as it is written for people.
    pub fn name(self) -> &'static str
        ensures { result.now ≡ name_of self }
    {
        match self {
            Candidate::Construct => "CONSTRUCT",
            Candidate::Where => "WHERE",
            Candidate::And => "AND",
            Candidate::Order => "ORDER BY",
            Candidate::By => "BY",
            Candidate::Desc => "DESC",
            Candidate::LabelOf => "label $X",
            Candidate::Variable => "a variable ($X)",
            Candidate::Quoted => "a label in double quotes (\"text\")",
            Candidate::Name => "a name",
            Candidate::OpenTag => "an element (<name>)",
            Candidate::CloseTag => "a closing tag (</name>)",
            Candidate::TagEnd => "> to end the tag",
            Candidate::OpenBrace => "a group label ({$X})",
            Candidate::CloseBrace => "}",
            Candidate::Comma => "a comma and another key",
            Candidate::Comparison => "a comparison (= != < <= > >=)",
            Candidate::Dot => ". and another step",
            Candidate::Bar => "| and another choice",
            Candidate::Repeat => "* + or ?",
            Candidate::OpenParenthesis => "a path in parentheses",
            Candidate::CloseParenthesis => ")",
            Candidate::LabelEnd => "the quote that ends the label",
            Candidate::Escape => "n, t, a quote or a backslash",
            Candidate::End => "the end of the view",
        }
    }

    /// Whether the spelling begins with a byte that goes on with a word before it: with a letter.
    pub fn begins_word(self) -> bool
        ensures { result ≡ begins_word self }
    {
        matches!(
            self,
            Candidate::Construct
                | Candidate::Where
                | Candidate::And
                | Candidate::Order
                | Candidate::By
                | Candidate::Desc
                | Candidate::LabelOf
                | Candidate::Name
        )
    }
}
