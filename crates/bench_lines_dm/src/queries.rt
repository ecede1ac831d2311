ghost use Rattle.std.specs.Prelude.{◌≡◌, [], ◌∷◌, IfOk, IsTrue, codes, nat_lt};
ghost use Rattle.std.specs.List.{list_all};
ghost use Rattle.algebra_dm.specs.declared.query.Query.TheVariants as queries;
ghost use Rattle.bench_lines_dm.specs.Bench.{answer_query, joined_query};

use algebra_dm::Query;
use sqlite_items::Boxed;
use std::alloc::{AllocError, Global};
use value_dm::{Names, Text, Value};

// A text of ASCII letters.
fn name(alloc: Global, letters: &str) -> Result<Text, AllocError>
    requires { IsTrue (list_all (λ letter. nat_lt letter 128) letters.now) }
    ensures { IfOk result (λ text. text ≡ letters.now) }
{
    Text::from_str(alloc, letters)
}

fn table(alloc: Global, letters: &str) -> Result<Boxed<Query>, AllocError>
    requires { IsTrue (list_all (λ letter. nat_lt letter 128) letters.now) }
    ensures { IfOk result (λ query. query ≡ queries.Table letters.now) }
{
    Boxed::new(alloc, Query::Table(name(alloc, letters)?))
}

fn text_and_size(alloc: Global) -> Result<Names, AllocError>
    ensures { IfOk result (λ names. names ≡ codes "text" ∷ codes "size" ∷ []) }
{
    let mut names = Names::new(alloc);
    names.push(name(alloc, "text")?)?;
    names.push(name(alloc, "size")?)?;
    Ok(names)
}

/// The first of the two queries, a difference of sets in which NULL is equal to NULL. Refused for want of memory alone.
pub fn answer_query(alloc: Global) -> Result<Boxed<Query>, AllocError>
    ensures { IfOk result (λ query. query ≡ answer_query) }
{
    let names = text_and_size(alloc)?;
    let all = Boxed::new(alloc, Query::Project(table(alloc, "Note")?, names))?;
    let size = name(alloc, "size")?;
    let others = Boxed::new(
        alloc,
        Query::Ne(table(alloc, "Note")?, size, Value::Integer(1)),
    )?;
    Boxed::new(alloc, Query::Diff(all, others))
}

/// The second of the two queries, a natural join in which NULL is equal to nothing. Refused for want of memory alone.
pub fn joined_query(alloc: Global) -> Result<Boxed<Query>, AllocError>
    ensures { IfOk result (λ query. query ≡ joined_query) }
{
    let from = name(alloc, "id")?;
    let to = name(alloc, "person")?;
    let persons = Boxed::new(alloc, Query::Rename(table(alloc, "Person")?, from, to))?;
    Boxed::new(alloc, Query::Join(persons, table(alloc, "Member")?))
}
