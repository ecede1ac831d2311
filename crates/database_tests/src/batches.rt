ghost use Rattle.std.specs.Prelude.{IsTrue};
ghost use Rattle.keys_dm.specs.Violations.{KeepsKeys};
ghost use Rattle.append_dm.specs.Appended.{IsBatchFor, appended};

use crate::bases::database;
use append_dm::{combined, is_batch_for, write_batch};
use graphs_dm::{write_direct, write_map_keys};
use keys_dm::holds_all;
use names_dm::Base;
use outside_dm::NoFaultSink;
use std::alloc::Global;
use table_csv::Database;
use value_dm::Text;

const LOG: &str = "CREATE TABLE Log (msg TEXT);";

// What `write_batch` puts for a third row over the base `~`, then what `write_direct` and `write_map_keys` put for one row.
const BATCH: &str = "_:t1r3 <http://www.w3.org/1999/02/22-rdf-syntax-ns#type> <~Log> .
_:t1r3 <~Log#msg> \"hi\" .
";

const DIRECT: &str = "_:t1r1 <http://www.w3.org/1999/02/22-rdf-syntax-ns#type> <~Log> .
_:t1r1 <~Log#msg> \"hi\" .
";

const MAP_KEYS: &str =
    "<~Log> <http://www.w3.org/1999/02/22-rdf-syntax-ns#type> <http://www.w3.org/2002/07/owl#Class> .
<~Log#msg> <http://www.w3.org/1999/02/22-rdf-syntax-ns#type> <http://www.w3.org/2002/07/owl#DatatypeProperty> .
<~Log#msg> <http://www.w3.org/2000/01/rdf-schema#domain> <~Log> .
<~Log#msg> <http://www.w3.org/2000/01/rdf-schema#range> <http://www.w3.org/2001/XMLSchema#string> .
_:t1r1 <http://www.w3.org/1999/02/22-rdf-syntax-ns#type> <~Log> .
_:t1r1 <~Log#msg> \"hi\" .
";

fn base(alloc: Global) -> Option<Base> {
    Base::new(Text::from_str(alloc, "~").ok()?).ok()
}

fn keeps_keys(alloc: Global, database: &Database) -> bool
    ensures { IsTrue result → KeepsKeys database.now }
{
    match holds_all(alloc, database) {
        Ok(holds) => holds,
        Err(_) => false,
    }
}

// Whether both together keep their keys.
fn keep_keys(alloc: Global, old: &Database, batch: &Database) -> bool
    requires { IsBatchFor old.now batch.now }
    ensures { IsTrue result → KeepsKeys (appended old.now batch.now) }
{
    match combined(alloc, old, batch) {
        Ok(whole) => keeps_keys(alloc, &whole),
        Err(_) => false,
    }
}

fn put(alloc: Global, base: &Base, old: &Database, batch: &Database, out: &mut NoFaultSink) -> bool
    requires batch { IsBatchFor old.now batch.now }
    requires old { KeepsKeys old.now }
    requires whole { KeepsKeys (appended old.now batch.now) }
{
    write_batch(alloc, base, old, batch, out).is_ok()
}

// Whether `BATCH` is put for the batch.
fn is_batch_put(alloc: Global, base: &Base, old: &Database, batch: &Database) -> bool {
    if !is_batch_for(old, batch) {
        return false;
    }
    if !keeps_keys(alloc, old) {
        return false;
    }
    if !keep_keys(alloc, old, batch) {
        return false;
    }
    let mut out = NoFaultSink::new(alloc);
    put(alloc, base, old, batch, &mut out) & (out.bytes() == BATCH.as_bytes())
}

fn is_put_for(alloc: Global, old: &Database) -> Option<bool> {
    let batch = database(alloc, LOG, "msg\nhi\n")?;
    Some(is_batch_put(alloc, &base(alloc)?, old, &batch))
}

fn is_another_for(alloc: Global, old: &Database) -> Option<bool> {
    let another = database(alloc, "CREATE TABLE Log (msg DATE);", "msg\n")?;
    Some(is_batch_for(old, &another))
}

// Whether the batch is put, and a database of another table is none.
fn is_batch(alloc: Global) -> Option<bool> {
    let old = database(alloc, LOG, "msg\nhi\nhi\n")?;
    Some(is_put_for(alloc, &old)? & !is_another_for(alloc, &old)?)
}

#[test]
fn batches(rt: HostRuntime) {
    let found = is_batch(rt.alloc()).unwrap_or(false);
    assert!(rt; found);
}

fn is_direct(alloc: Global, base: &Base, database: &Database) -> bool {
    let mut out = NoFaultSink::new(alloc);
    let put = write_direct(alloc, base, database, &mut out).is_ok();
    put & (out.bytes() == DIRECT.as_bytes())
}

fn is_map_keys(alloc: Global, base: &Base, database: &Database) -> bool {
    let mut out = NoFaultSink::new(alloc);
    let put = write_map_keys(alloc, base, database, &mut out).is_ok();
    put & (out.bytes() == MAP_KEYS.as_bytes())
}

fn are_written(alloc: Global, database: &Database) -> Option<bool> {
    let base = base(alloc)?;
    Some(is_direct(alloc, &base, database) & is_map_keys(alloc, &base, database))
}

fn are_graphs(alloc: Global) -> Option<bool> {
    are_written(alloc, &database(alloc, LOG, "msg\nhi\n")?)
}

#[test]
fn graphs(rt: HostRuntime) {
    let found = are_graphs(rt.alloc()).unwrap_or(false);
    assert!(rt; found);
}
