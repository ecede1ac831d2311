use value_dm::{Names, Sequence, Text};

/// What the values of a column are.
#[derive(Clone, Copy, Debug, Drop)]
pub enum ColumnType {
    Text,
    Integer,
    Decimal,
    Boolean,
    Date,
    Time,
    DateTime,
    Binary,
}

/// The table that a foreign key refers to, and its columns where they are given.
#[derive(Drop)]
pub struct Target {
    pub table: Text,
    pub columns: Option<Names>,
}

/// A foreign key of a table.
#[derive(Drop)]
pub struct ForeignKey {
    pub columns: Names,
    pub target: Target,
}

/// A key of a table.
#[derive(Drop)]
pub enum Key {
    Primary(Names),
    Unique(Names),
    Foreign(ForeignKey),
}

/// What is said of a column behind its type.
#[derive(Drop)]
pub enum Constraint {
    PrimaryKey,
    Unique,
    NotNull,
    Null,
    References(Target),
}

/// A column of a table.
#[derive(Drop)]
pub struct Column {
    pub name: Text,
    pub kind: ColumnType,
    pub constraints: Sequence<Constraint>,
}

/// A part of CREATE TABLE between its parentheses.
#[derive(Drop)]
pub enum Item {
    Key(Key),
    Column(Column),
}

/// CREATE TABLE.
#[derive(Drop)]
pub struct CreateTable {
    pub name: Text,
    pub items: Sequence<Item>,
}

/// ALTER TABLE, which adds a key.
#[derive(Drop)]
pub struct AlterTable {
    pub name: Text,
    pub key: Key,
}

/// A statement.
#[derive(Drop)]
pub enum Statement {
    Create(CreateTable),
    Alter(AlterTable),
}
