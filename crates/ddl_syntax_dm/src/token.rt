ghost use Rattle.std.specs.Prelude.{◌≡◌};
ghost use Rattle.ddl_syntax_dm.specs.Words.{spelling};

use crate::syntax::ColumnType;

/// A word of the statements, in any case of its ASCII letters.
#[derive(Clone, Copy, Debug, Drop)]
pub enum Keyword {
    Create,
    Table,
    If,
    Not,
    Exists,
    Alter,
    Only,
    Add,
    Constraint,
    Primary,
    Key,
    Unique,
    Foreign,
    References,
    On,
    Delete,
    Update,
    No,
    Action,
    Restrict,
    Cascade,
    Set,
    Null,
    Default,
    Varying,
    Without,
    Time,
    Zone,
}

impl Keyword {
    /// How the word is spelled in capitals.
    pub fn spelling(self) -> &'static str
        ensures { result.now ≡ spelling self }
    {
        match self {
            Keyword::Create => "CREATE",
            Keyword::Table => "TABLE",
            Keyword::If => "IF",
            Keyword::Not => "NOT",
            Keyword::Exists => "EXISTS",
            Keyword::Alter => "ALTER",
            Keyword::Only => "ONLY",
            Keyword::Add => "ADD",
            Keyword::Constraint => "CONSTRAINT",
            Keyword::Primary => "PRIMARY",
            Keyword::Key => "KEY",
            Keyword::Unique => "UNIQUE",
            Keyword::Foreign => "FOREIGN",
            Keyword::References => "REFERENCES",
            Keyword::On => "ON",
            Keyword::Delete => "DELETE",
            Keyword::Update => "UPDATE",
            Keyword::No => "NO",
            Keyword::Action => "ACTION",
            Keyword::Restrict => "RESTRICT",
            Keyword::Cascade => "CASCADE",
            Keyword::Set => "SET",
            Keyword::Null => "NULL",
            Keyword::Default => "DEFAULT",
            Keyword::Varying => "VARYING",
            Keyword::Without => "WITHOUT",
            Keyword::Time => "TIME",
            Keyword::Zone => "ZONE",
        }
    }
}

/// The first word of a column's type.
#[derive(Clone, Copy, Debug, Drop)]
pub struct TypeWord {
    pub kind: ColumnType,
    /// VARYING may follow.
    pub varies: bool,
    /// WITHOUT TIME ZONE may follow, behind a precision if there is one.
    pub zoned: bool,
}
