ghost use Rattle.algebra_dm.specs.Certain.{KeepsKeysOf};
ghost use Rattle.algebra_dm.specs.Tuples.{IsRowOfTable};
ghost use Rattle.algebra_dm.specs.declared.query.Mode.{Mode};
ghost use Rattle.graphs_dm.specs.Graphs.{IsTripleOf};
ghost use Rattle.keeping_dm.specs.Keeping.{Keeps};
ghost use Rattle.pattern_dm.specs.declared.pattern.Pattern.{Pattern};
ghost use Rattle.schema_dm.specs.Schemas.{table_at};
ghost use Rattle.std.specs.Prelude.{◌<◌, ℕ, length};
ghost use Rattle.table_csv.specs.Databases.{Data, IsDatabase};
ghost use Rattle.table_patterns_dm.specs.TablePatterns.{IsTablePattern, graph_of};

use facts_dm::naming_laws;
use names_dm::Base;

/// What the pattern of a table says: over the map graph of a database that keeps its keys, and over the map-keys graph of
/// any database, its solutions are exactly the mappings that agree with a row of the table (SPARQL 1.1 Query Language,
/// section 18). The call does nothing; its clause is the law.
pub fn tables_are_kept(base: &Base)
    ensures { (mode : Mode) (D : Data) (t : ℕ) (p : Pattern) → IsDatabase D → KeepsKeysOf mode D → t < length D.tables → IsTablePattern mode base.now D.tables t p
        → Keeps (IsTripleOf (graph_of mode) base.now D) p (IsRowOfTable D (table_at D.tables t).name) }
{
    naming_laws(base);
}
