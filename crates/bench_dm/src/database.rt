ghost use Rattle.std.specs.Prelude.{◌≡◌, ◌≤◌, ◌+◌, ◌/◌, [], ◌∷◌, IfOk};
ghost use Rattle.schema_dm.specs.Schemas.{schema_of};
ghost use Rattle.table_csv.specs.Databases.{IsDatabase};
ghost use Rattle.keys_dm.specs.Violations.{KeepsKeys};
ghost use Rattle.bench_dm.specs.Generated.{generated, lists};
ghost use Rattle.bench_dm.specs.Tables.{drafts};

use crate::drafts::drafts;
use crate::rows::{dept_rows, member_rows, note_rows, person_rows};
use schema_dm::{Schema, SchemaFault};
use std::alloc::{AllocError, Global};
use table_csv::{Database, RowsList};

// No cause of refusal holds of the four drafts.
fn schema(alloc: Global) -> Result<Schema, AllocError>
    ensures { IfOk result (λ schema. schema ≡ schema_of drafts) }
{
    match Schema::new(alloc, drafts(alloc)?) {
        Ok(schema) => Ok(schema),
        Err(SchemaFault::Memory) => Err(AllocError),
        Err(SchemaFault::Bad(_)) => unreachable!(),
    }
}

fn lists(alloc: Global, n: u32) -> Result<RowsList, AllocError>
    requires { n ≤ 50000 }
    ensures { IfOk result (λ made. made ≡ lists n) }
{
    let departments = n / 10 + 1;
    let mut made = RowsList::new(alloc);
    made.push(dept_rows(alloc, departments)?)?;
    made.push(person_rows(alloc, departments, n)?)?;
    made.push(member_rows(alloc, departments, n)?)?;
    made.push(note_rows(alloc, n)?)?;
    Ok(made)
}

/// The database of the benchmark, for an `n` from 1 to 50,000: departments from 1 to `n / 10 + 1`, and for each number
/// from 1 to `n` a person, a membership and a note. Persons reference their department and, but for the first, the
/// person of half their number; a membership is a person with a department, and the table of memberships is a binary
/// relation. It keeps its keys. Refused for want of memory alone.
pub fn make_database(alloc: Global, n: u32) -> Result<Database, AllocError>
    requires { n ≤ 50000 }
    ensures made { IfOk result (λ database. database ≡ generated n) }
    ensures fits { IsDatabase (generated n) }
    ensures kept { KeepsKeys (generated n) }
{
    let schema = schema(alloc)?;
    let lists = lists(alloc, n)?;
    match Database::new(schema, lists) {
        Some(database) => Ok(database),
        None => unreachable!(),
    }
}
