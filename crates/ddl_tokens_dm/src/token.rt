ghost use Rattle.std.specs.Prelude.{◌≡◌};
ghost use Rattle.ddl_tokens_dm.specs.Characters.{character};

use value_dm::Text;

/// A punctuation mark of the statements.
#[derive(Clone, Copy, Debug, Drop)]
pub enum Sign {
    Open,
    Close,
    Comma,
    Semicolon,
}

impl Sign {
    /// The character that the mark is.
    pub fn character(self) -> char
        ensures { result ≡ character self }
    {
        match self {
            Sign::Open => '(',
            Sign::Close => ')',
            Sign::Comma => ',',
            Sign::Semicolon => ';',
        }
    }
}

/// A token of the statements.
#[derive(Drop)]
pub enum Token {
    Sign(Sign),
    /// ASCII digits, whose value has no effect.
    Number,
    /// A bare word, as it is written.
    Word(Text),
    /// The name in a quoted identifier, its doubled quotes taken once.
    Quoted(Text),
}

/// A token, and the place of its first byte in the file, from 1.
#[derive(Drop)]
pub struct Placed {
    pub token: Token,
    pub place: usize,
}
