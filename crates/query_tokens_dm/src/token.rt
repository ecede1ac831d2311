use value_dm::{Text, Value};

/// A token of a query's text.
#[derive(Drop)]
pub enum Token {
    /// An opening parenthesis.
    Open,
    /// A closing parenthesis.
    Close,
    /// A bare word, as it is written.
    Word(Text),
    /// What stands in a quoted text, its doubled quotes taken once.
    Quoted(Text),
}

/// A token, and the place of its first byte in the text, from 1.
#[derive(Drop)]
pub struct Placed {
    pub token: Token,
    pub place: usize,
    /// Of a quoted text behind the word of a kind, the value of the kind that it spells, if it spells one.
    pub value: Option<Value>,
}
