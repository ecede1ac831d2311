ghost use Rattle.std.specs.Prelude.{◌≡◌, ◌⊎◌, ◌<◌, length, IfOk, IfErr, IfNone, IfSome, MatchResult, OnOk, Some};

use crate::build::tables_of;
use crate::indexed::IndexedDrafts;
use crate::relation::sides;
use crate::verdict::{count_error, first_error};
use crate::{Binary, Drafts, SchemaFault, Table};
use std::alloc::{AllocError, Global};
use std::marker::Model;
use value_dm::{Sequence, TryCopy};

/// The tables of a database, which contracts see as a list.
///
/// Every schema is valid: `tables` says what that means.
#[derive(Drop)]
pub struct Schema {
    tables: Sequence<Table>,
}

impl Model for Schema {
    ghost use Rattle.std.specs.Prelude.{List};
    ghost use Rattle.schema_dm.specs.declared.table.Table.{Table};
    ghost use Rattle.schema_dm.specs.Schemas.{IsSchema};

    ghost Value = { List Table };

    ghost view = { λ schema. schema.tables };

    ghost invariant = { λ schema. IsSchema schema.tables };
}

impl Schema {
    ghost use Rattle.schema_dm.specs.declared.table.Binary.{Binary as Sides};
    ghost use Rattle.schema_dm.specs.declared.refusal.SchemaError.{SchemaError as TheError};
    ghost use Rattle.schema_dm.specs.Drafts.{AreLawful, IsRefusedFor};
    ghost use Rattle.schema_dm.specs.Relations.{IsBinaryRelation};
    ghost use Rattle.schema_dm.specs.Schemas.{IsRefusedWith, IsSchema, schema_of};

    /// The schema of the drafts, with keys by places, after SQL's table, unique and referential
    /// constraint definitions (ISO/IEC 9075-2, 11.3, 11.7 and 11.8). A foreign key without a list of
    /// target columns references the target's primary key.
    ///
    /// `Bad` exactly where a cause of refusal holds: the first table with one is named, counted from
    /// 1, with its first cause in the order of `SchemaCause`. `NoTable` and `TooManyTables`, for more
    /// than 4,096, come before all others and name table 0.
    pub fn new(alloc: Global, drafts: Drafts) -> Result<Schema, SchemaFault>
        ensures made { IfOk result (λ schema. schema ≡ schema_of drafts) }
        ensures lawful { OnOk result (AreLawful drafts) }
        ensures refused { IfErr result (IsRefusedWith drafts) }

        // Of lawful drafts nothing but memory is wanting, and of others the one error is told, or memory is wanting.
        ensures only { AreLawful drafts → MatchResult result (λ schema. schema ≡ schema_of drafts) (λ fault. fault ≡ SchemaFault.Memory) }
        ensures first { (error : TheError) → IsRefusedFor drafts error →
            MatchResult result (λ schema. ⊥) (λ fault. (fault ≡ SchemaFault.Bad error) ⊎ (fault ≡ SchemaFault.Memory)) }
    {
        Schema::of_drafts(alloc, drafts)
    }

    fn of_drafts(alloc: Global, drafts: Drafts) -> Result<Schema, SchemaFault>
        ensures made { IfOk result (λ schema. schema ≡ schema_of drafts) }
        ensures lawful { OnOk result (AreLawful drafts) }
        ensures refused { IfErr result (IsRefusedWith drafts) }
    {
        match count_error(drafts.as_slice()) {
            None => {}
            Some(error) => return Err(SchemaFault::Bad(error)),
        }
        let indexed = IndexedDrafts::new(alloc, drafts)?;
        match first_error(alloc, &indexed)? {
            None => {}
            Some(error) => return Err(SchemaFault::Bad(error)),
        }
        Ok(Schema {
            tables: tables_of(alloc, &indexed)?,
        })
    }

    /// The sides of the table at this place, counted from 0, where the table is a binary relation, and
    /// else None. Takes no memory.
    ///
    /// A binary relation has exactly two columns, which are its primary key in either order, and exactly
    /// two foreign keys, one on each column alone, each onto the whole primary key of its target; and no
    /// foreign key of the schema has it as its target.
    pub fn is_binary(&self, table: u32) -> Option<Binary>
        requires { table < length self.now }
        ensures found { IfSome result (IsBinaryRelation self.now table) }
        ensures none { IfNone result ((sides : Sides) → ¬ IsBinaryRelation self.now table sides) }
        ensures only { (sides : Sides) → IsBinaryRelation self.now table sides → result ≡ Some sides }
    {
        sides(self.tables.as_slice(), table)
    }

    /// The tables in declared order.
    pub fn tables(&self) -> &[Table]
        ensures value { result.now ≡ self.now }
        ensures valid { IsSchema self.now }
    {
        self.tables.as_slice()
    }
}

impl TryCopy for Schema {
    fn copy(&self, alloc: Global) -> Result<Schema, AllocError> {
        Ok(Schema {
            tables: self.tables.copy(alloc)?,
        })
    }
}
