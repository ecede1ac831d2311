ghost use Rattle.std.specs.Prelude.{◌≡◌, ◌≢◌, ◌↔◌, ◌&&◌, [], IsTrue};
ghost use Rattle.members_dm.specs.Membership.{IsIn};
ghost use Rattle.query_rows_dm.specs.Names.{AreNamed};

use algebra_dm::Query;
use value_dm::{Names, Text};

fn is_some(name: &Text) -> bool
    ensures { IsTrue result ↔ (name.now ≢ []) }
{
    !name.as_str().is_empty()
}

fn are_some(names: &Names) -> bool
    ensures { IsTrue result ↔ (¬ IsIn [] names.now) }
{
    names.as_slice().iter().all(|name| is_some(name))
}

fn both(first: bool, second: bool) -> bool
    ensures { result ≡ (first && second) }
{
    first & second
}

/// Whether no name in the query is empty. A query is well-formed where this is so and `check_query` finds no fault.
pub fn is_named(query: &Query) -> bool
    ensures { IsTrue result ↔ AreNamed query.now }
{
    match query {
        Query::Table(name) => is_some(name),
        Query::Null(name) => is_some(name),
        Query::Eq(part, name, _) => both(is_named(part.get()), is_some(name)),
        Query::Ne(part, name, _) => both(is_named(part.get()), is_some(name)),
        Query::IsNull(part, name) => both(is_named(part.get()), is_some(name)),
        Query::NotNull(part, name) => both(is_named(part.get()), is_some(name)),
        Query::Project(part, names) => both(is_named(part.get()), are_some(names)),
        Query::Rename(part, from, to) => {
            both(is_named(part.get()), both(is_some(from), is_some(to)))
        }
        Query::Join(left, right) => both(is_named(left.get()), is_named(right.get())),
        Query::Union(left, right) => both(is_named(left.get()), is_named(right.get())),
        Query::Diff(left, right) => both(is_named(left.get()), is_named(right.get())),
    }
}
