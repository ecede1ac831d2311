ghost use Rattle.std.specs.Prelude.{◌≡◌, ◌⊎◌, ◌↔◌, ◌<◌, ◌≤◌, ℕ, [], ◌∷◌, IsTrue, IfSome, IfNone, Any, length, slice_get};
ghost use Rattle.schema_dm.specs.Schemas.{table_at};
ghost use Rattle.schema_dm.specs.Relations.{IsBinaryRelation, IsPairKey, IsSide, IsSideAt, IsTarget};
ghost use Rattle.schema_dm.specs.declared.table.Binary.{Binary};

use crate::{Binary, ForeignKey, Table};

fn has_key_onto(table: &Table, place: u32) -> bool
    ensures { IsTrue result ↔ Any (λ key. key.target ≡ place) table.now.foreign }
{
    table
        .foreign
        .as_slice()
        .iter()
        .any(|key| key.target == place)
}

fn is_target(tables: &[Table], place: u32) -> bool
    ensures { IsTrue result ↔ IsTarget tables.now place }
{
    tables.iter().any(|other| has_key_onto(other, place))
}

fn are_both(places: &[u32]) -> bool
    ensures { IsTrue result ↔ ((places.now ≡ 0 ∷ 1 ∷ []) ⊎ (places.now ≡ 1 ∷ 0 ∷ [])) }
{
    places == [0, 1].as_slice() || places == [1, 0].as_slice()
}

fn has_pair_key(table: &Table) -> bool
    ensures { IsTrue result ↔ IsPairKey table.now }
{
    match &table.primary {
        None => false,
        Some(places) => are_both(places.as_slice()),
    }
}

fn has_primary(table: &Table, places: &[u32]) -> bool
    ensures { IsTrue result ↔ (table.now.primary ≡ Some places.now) }
{
    match &table.primary {
        None => false,
        Some(primary) => primary.as_slice() == places,
    }
}

fn references_primary(tables: &[Table], key: &ForeignKey) -> bool
    ensures { IsTrue result ↔ ((table_at tables.now key.now.target).primary ≡ Some key.now.target_columns) }
{
    match tables.get(key.target as usize) {
        None => false,
        Some(target) => has_primary(target, key.target_columns.as_slice()),
    }
}

fn is_alone(columns: &[u32], place: u32) -> bool
    ensures { IsTrue result ↔ (columns.now ≡ place ∷ []) }
{
    columns == [place].as_slice()
}

fn is_side(tables: &[Table], key: &ForeignKey, place: u32) -> bool
    ensures { IsTrue result ↔ IsSide tables.now key.now place }
{
    is_alone(key.columns.as_slice(), place) && references_primary(tables, key)
}

fn side(tables: &[Table], keys: &[ForeignKey], place: u32) -> Option<u32>
    requires { length keys.now ≤ 2 }
    ensures found { IfSome result (IsSideAt tables.now keys.now place) }
    ensures none { IfNone result ((number : ℕ) → ¬ IsSideAt tables.now keys.now place number) }
{
    for (number, key) in keys.iter().enumerate() {
        if is_side(tables, key, place) {
            return Some(number as u32);
        }
    }
    None
}

fn is_link_table(tables: &[Table], place: u32, table: &Table) -> bool
    ensures { IsTrue result ↔ ((length table.now.columns ≡ 2) × (length table.now.foreign ≡ 2) × IsPairKey table.now × (¬ IsTarget tables.now place)) }
{
    table.columns.len() == 2
        && table.foreign.len() == 2
        && has_pair_key(table)
        && !is_target(tables, place)
}

/// The sides of the table, where it is a binary relation.
pub fn sides(tables: &[Table], place: u32) -> Option<Binary>
    requires { place < length tables.now }
    ensures found { IfSome result (IsBinaryRelation tables.now place) }
    ensures none { IfNone result ((sides : Binary) → ¬ IsBinaryRelation tables.now place sides) }
{
    let table = &tables[place as usize];
    if !is_link_table(tables, place, table) {
        return None;
    }
    let keys = table.foreign.as_slice();
    let left = side(tables, keys, 0)?;
    let right = side(tables, keys, 1)?;
    Some(Binary { left, right })
}
