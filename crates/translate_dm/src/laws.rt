ghost use Rattle.std.specs.Prelude.{◌≡◌, ◌↔◌, List};
ghost use Rattle.schema_dm.specs.Schemas.{IsSchema};
ghost use Rattle.schema_dm.specs.declared.table.Table.{Table};
ghost use Rattle.table_csv.specs.Databases.{Data, IsDatabase};
ghost use Rattle.algebra_dm.specs.Certain.{KeepsKeysOf};
ghost use Rattle.algebra_dm.specs.Nodes.{IsWellFormed};
ghost use Rattle.algebra_dm.specs.Tuples.{IsTuple, Tuple};
ghost use Rattle.algebra_dm.specs.declared.query.Mode.{Mode};
ghost use Rattle.algebra_dm.specs.declared.query.Query.{Query};
ghost use Rattle.graphs_dm.specs.Graphs.{IsTripleOf};
ghost use Rattle.pattern_dm.specs.Mappings.{Mapping};
ghost use Rattle.pattern_dm.specs.Solution.{Solution};
ghost use Rattle.pattern_dm.specs.declared.pattern.Pattern.{Pattern};
ghost use Rattle.keeping_dm.specs.Keeping.{Agrees};
ghost use Rattle.keeping_dm.specs.LawfulValues.{HasLawfulValues};
ghost use Rattle.table_patterns_dm.specs.TablePatterns.{graph_of};
ghost use Rattle.translate_dm.specs.Translation.{Translates};

use facts_dm::naming_laws;
use names_dm::Base;

/// What the pattern of a query says: over the map graph of a database that keeps its keys, and over the map-keys graph of any
/// database, its solutions are exactly the mappings that agree with a tuple of the query (SPARQL 1.1 Query Language, section
/// 18). Over one schema a well-formed query has a pattern, said by double negation, and no query has two. The call does nothing;
/// its clauses are the laws.
pub fn queries_are_kept(base: &Base)
    ensures keeps { (mode : Mode) (D : Data) (q : Query) (p : Pattern) → IsDatabase D → KeepsKeysOf mode D → IsWellFormed D.tables q → HasLawfulValues q
        → Translates mode base.now D.tables q p → (m : Mapping) → Solution (IsTripleOf (graph_of mode) base.now D) p m ↔ ((w : Tuple) × IsTuple D q w × Agrees m w) }
    ensures some { (mode : Mode) (tables : List Table) (q : Query) → IsSchema tables → IsWellFormed tables q → ¬ ((p : Pattern) → ¬ Translates mode base.now tables q p) }
    ensures one { (mode : Mode) (tables : List Table) (q : Query) (p other : Pattern) → IsSchema tables → Translates mode base.now tables q p → Translates mode base.now tables q other → p ≡ other }
{
    naming_laws(base);
}
