// The triples of a graph as rows.
ghost use Rattle.std.specs.Prelude.{◌≡◌, ◌≢◌, ◌↔◌, ◌++◌, ◌∷◌, ◌||◌, ◌&&◌, ◌==◌, [], ℕ, List, IfOk, OnOk, not, true, false, filter, length, map, if◌then◌else◌};
ghost use Rattle.solutions_dm.specs.Table.{HasRow};
ghost use Rattle.store_dm.specs.Slots as spec;
ghost use Rattle.store_dm.specs.Slots.{AreOnce, IsBound, IsTripleRow, is_missing, is_same_variable, slot_column, slot_columns};
ghost use Rattle.store_dm.specs.Turns.{numbers};

use crate::graph::Graph;
use crate::listing::Triad;
use crate::matches::{Beginning, numbers};
use crate::slots::{Slot, is_missing, is_same_variable, sought};
use names_dm::Var;
use solutions_dm::{Column, Solutions};
use std::alloc::{AllocError, Global};
use value_dm::{Sequence, TryCopy};

// Whether numbers that stand for one variable are the same. A flag says that two of the three parts are one variable.
fn agrees(sp: bool, so: bool, po: bool, x: (u32, u32, u32)) -> bool
    ensures { result ≡ spec.agrees sp so po x }
{
    (!sp | (x.0 == x.1)) & ((!so | (x.0 == x.2)) & (!po | (x.1 == x.2)))
}

// Adds a triple, if it is to be kept.
fn add_if(
    found: &mut Vec<(u32, u32, u32)>,
    x: (u32, u32, u32),
    wanted: bool,
) -> Result<(), AllocError>
    ensures { OnOk result (found.new.items ≡ found.old.items ++ (if wanted then x ∷ [] else [])) }
{
    if wanted {
        found.push(x)?;
    }
    Ok(())
}

// The triples whose numbers agree.
fn agreeing(
    alloc: Global,
    triads: &[Triad],
    beginning: Beginning,
    sp: bool,
    so: bool,
    po: bool,
) -> Result<Vec<(u32, u32, u32)>, AllocError>
    ensures { IfOk result (λ found. found.items ≡ filter (spec.agrees sp so po) (map (numbers beginning) triads.now)) }
{
    let mut found = Vec::new(alloc);
    for triad in triads {
        let x = numbers(beginning, *triad);
        add_if(&mut found, x, agrees(sp, so, po, x))?;
    }
    Ok(found)
}

fn part_of(part: Beginning, x: (u32, u32, u32)) -> u32
    ensures { result ≡ spec.part_of part x }
{
    match part {
        Beginning::Subject => x.0,
        Beginning::Predicate => x.1,
        Beginning::Object => x.2,
    }
}

// One part of each triple.
fn parts(
    alloc: Global,
    found: &[(u32, u32, u32)],
    part: Beginning,
) -> Result<Sequence<u32>, AllocError>
    ensures { IfOk result (λ made. made ≡ map (spec.part_of part) found.now) }
{
    let mut made = Sequence::new(alloc);
    for x in found {
        made.push(part_of(part, *x))?;
    }
    Ok(made)
}

// Adds a column, if it is needed.
fn add_named(
    alloc: Global,
    columns: &mut Sequence<Column>,
    name: &Var,
    needed: bool,
    found: &[(u32, u32, u32)],
    part: Beginning,
) -> Result<(), AllocError>
    ensures { OnOk result (columns.new ≡ columns.old ++ slot_column (Slot.Var name.now) needed (map (spec.part_of part) found.now)) }
{
    if needed {
        columns.push(Column {
            name: name.copy(alloc)?,
            numbers: parts(alloc, found, part)?,
        })?;
    }
    Ok(())
}

// Adds the column of a slot, if it is a variable and the column is needed.
fn add_column(
    alloc: Global,
    columns: &mut Sequence<Column>,
    slot: &Slot,
    needed: bool,
    found: &[(u32, u32, u32)],
    part: Beginning,
) -> Result<(), AllocError>
    ensures { OnOk result (columns.new ≡ columns.old ++ slot_column slot.now needed (map (spec.part_of part) found.now)) }
{
    match slot {
        Slot::Var(name) => add_named(alloc, columns, name, needed, found, part),
        Slot::Fixed(_) => Ok(()),
        Slot::Missing => Ok(()),
    }
}

// A column for each variable.
fn columns_of(
    alloc: Global,
    s: &Slot,
    p: &Slot,
    o: &Slot,
    found: &[(u32, u32, u32)],
) -> Result<Sequence<Column>, AllocError>
    ensures { IfOk result (λ columns. columns ≡ slot_columns s.now p.now o.now found.now) }
{
    let mut columns = Sequence::new(alloc);
    let second = !is_same_variable(s, p);
    let third = !(is_same_variable(s, o) | is_same_variable(p, o));
    add_column(alloc, &mut columns, s, true, found, Beginning::Subject)?;
    add_column(alloc, &mut columns, p, second, found, Beginning::Predicate)?;
    add_column(alloc, &mut columns, o, third, found, Beginning::Object)?;
    Ok(columns)
}

// The rows of these columns.
fn table_of(
    alloc: Global,
    s: &Slot,
    p: &Slot,
    o: &Slot,
    found: &[(u32, u32, u32)],
) -> Result<Solutions, AllocError>
    ensures { IfOk result (λ rows. rows ≡ record { columns = slot_columns s.now p.now o.now found.now; rows = length found.now }) }
{
    let columns = columns_of(alloc, s, p, o, found)?;
    Ok(Solutions::of_columns(columns, found.len()))
}

// The rows where each part is a variable or a number.
fn found_rows(
    alloc: Global,
    graph: &Graph,
    s: &Slot,
    p: &Slot,
    o: &Slot,
) -> Result<Solutions, AllocError>
    requires subject { is_missing s.now ≡ false }
    requires predicate { is_missing p.now ≡ false }
    requires object { is_missing o.now ≡ false }
    requires subject_bound { IsBound s.now }
    requires predicate_bound { IsBound p.now }
    requires object_bound { IsBound o.now }
    ensures exact { IfOk result (λ rows. (m : List ℕ → ℕ) → HasRow rows m ↔ IsTripleRow graph.now s.now p.now o.now m) }
    ensures once { IfOk result (λ rows. AreOnce rows) }
{
    let matches = graph.find(sought(s), sought(p), sought(o));
    let found = agreeing(
        alloc,
        matches.triads,
        matches.beginning,
        is_same_variable(s, p),
        is_same_variable(s, o),
        is_same_variable(p, o),
    )?;
    table_of(alloc, s, p, o, found.as_slice())
}

/// For each triple of the graph that fits, the mapping of exactly the variables of the slots that makes them the triple,
/// each once (SPARQL 1.1 Query Language, section 18.3.1). A variable that stands in two slots has one number;
/// `Slot::Missing` fits nothing. A number that is fixed isn't 0. Refused for want of memory alone.
pub fn triple_rows(
    alloc: Global,
    graph: &Graph,
    s: &Slot,
    p: &Slot,
    o: &Slot,
) -> Result<Solutions, AllocError>
    requires subject { IsBound s.now }
    requires predicate { IsBound p.now }
    requires object { IsBound o.now }
    ensures exact { IfOk result (λ rows. (m : List ℕ → ℕ) → HasRow rows m ↔ IsTripleRow graph.now s.now p.now o.now m) }
    ensures once { IfOk result (λ rows. AreOnce rows) }
{
    if is_missing(s) || is_missing(p) || is_missing(o) {
        Ok(Solutions::of_columns(Sequence::new(alloc), 0))
    } else {
        found_rows(alloc, graph, s, p, o)
    }
}
