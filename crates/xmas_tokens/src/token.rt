// Tokens of rules.

/// A token that is always written the same.
#[derive(Clone, Copy)]
pub enum Mark {
    /// `CONSTRUCT`
    Construct,
    /// `WHERE`
    Where,
    /// `AND`
    And,
    /// `label`
    LabelWord,
    /// `{`
    OpenBrace,
    /// `}`
    CloseBrace,
    /// `,`
    Comma,
    /// `ORDER`
    Order,
    /// `BY`
    By,
    /// `DESC`
    Desc,
}

/// The first byte of an operator that may go on.
#[derive(Clone, Copy)]
pub enum Sign {
    /// `!`
    Bang,
    /// `<`
    Less,
    /// `>`
    Greater,
}

/// The kinds of tokens.
#[derive(Clone, Copy)]
pub enum Kind {
    /// One that is always written the same.
    Fixed(Mark),
    /// An opening tag.
    OpenTag,
    /// A closing tag.
    CloseTag,
    /// A source's name.
    Name,
    /// A variable.
    Var,
    /// A quoted label.
    Quoted,
    /// A path.
    Path,
    /// An operator.
    Operator,
}
