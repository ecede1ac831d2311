// The operators by their words.
ghost use Rattle.std.specs.Prelude.{◌≡◌};
ghost use Rattle.query_text_dm.specs.Words.{operator_named};

use value_dm::Text;

/// What a query is made by.
#[derive(Clone, Copy, Debug, Drop)]
pub(crate) enum Operator {
    Table,
    Null,
    Eq,
    Ne,
    IsNull,
    NotNull,
    Project,
    Rename,
    Join,
    Union,
    Diff,
}

/// The operator with this word.
pub(crate) fn operator_named(name: &Text) -> Option<Operator>
    ensures { result ≡ operator_named name.now }
{
    let word = name.as_str();
    if word == "table" {
        Some(Operator::Table)
    } else if word == "null" {
        Some(Operator::Null)
    } else if word == "eq" {
        Some(Operator::Eq)
    } else if word == "ne" {
        Some(Operator::Ne)
    } else if word == "isnull" {
        Some(Operator::IsNull)
    } else if word == "notnull" {
        Some(Operator::NotNull)
    } else if word == "project" {
        Some(Operator::Project)
    } else if word == "rename" {
        Some(Operator::Rename)
    } else if word == "join" {
        Some(Operator::Join)
    } else if word == "union" {
        Some(Operator::Union)
    } else if word == "diff" {
        Some(Operator::Diff)
    } else {
        None
    }
}
