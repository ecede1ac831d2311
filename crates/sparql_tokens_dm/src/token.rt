ghost use Rattle.std.specs.Prelude.{◌≡◌};
ghost use Rattle.sparql_tokens_dm.specs.Characters.{sign_text, spelling};

use names_dm::{Iri, Literal, Var};

/// A punctuation mark.
#[derive(Clone, Copy, Debug, Drop)]
pub enum Sign {
    OpenBrace,
    CloseBrace,
    OpenParenthesis,
    CloseParenthesis,
    Dot,
    Comma,
    /// `!`
    Not,
    /// `&&`
    And,
    /// `||`
    Or,
}

impl Sign {
    /// How the mark is written.
    pub fn text(self) -> &'static str
        ensures { result.now ≡ sign_text self }
    {
        match self {
            Sign::OpenBrace => "{",
            Sign::CloseBrace => "}",
            Sign::OpenParenthesis => "(",
            Sign::CloseParenthesis => ")",
            Sign::Dot => ".",
            Sign::Comma => ",",
            Sign::Not => "!",
            Sign::And => "&&",
            Sign::Or => "||",
        }
    }
}

/// A key word.
#[derive(Clone, Copy, Debug, Drop)]
pub enum Keyword {
    Select,
    Distinct,
    Where,
    As,
    Union,
    Minus,
    Optional,
    Filter,
    True,
    Bound,
    SameTerm,
}

impl Keyword {
    /// How the word is written.
    pub fn spelling(self) -> &'static str
        ensures { result.now ≡ spelling self }
    {
        match self {
            Keyword::Select => "SELECT",
            Keyword::Distinct => "DISTINCT",
            Keyword::Where => "WHERE",
            Keyword::As => "AS",
            Keyword::Union => "UNION",
            Keyword::Minus => "MINUS",
            Keyword::Optional => "OPTIONAL",
            Keyword::Filter => "FILTER",
            Keyword::True => "true",
            Keyword::Bound => "bound",
            Keyword::SameTerm => "sameTerm",
        }
    }
}

/// A token of a query in SPARQL.
#[derive(Drop)]
pub enum Token {
    Sign(Sign),
    Word(Keyword),
    /// A variable, by its name.
    Var(Var),
    Iri(Iri),
    Literal(Literal),
}

/// A token, and the place of its first byte in the text, from 1.
#[derive(Drop)]
pub struct Placed {
    pub token: Token,
    pub place: usize,
}
