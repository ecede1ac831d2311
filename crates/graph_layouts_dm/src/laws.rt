ghost use Rattle.graphs_dm.specs.Graphs.{AreTriplesOf};
ghost use Rattle.graphs_dm.specs.declared.graph_name.GraphName.TheVariants.{Map, MapKeys};
ghost use Rattle.keys_dm.specs.Violations.{KeepsKeys};
ghost use Rattle.layouts_dm.specs.LayoutTables.{StandsFor};
ghost use Rattle.names_dm.specs.Statements.{Statement};
ghost use Rattle.std.specs.Prelude.{List};
ghost use Rattle.table_csv.specs.Plain.{IsPlain, PlainTable};

use names_dm::Base;
use table_csv::Database;

/// What a graph of a database stands for: its tables and their columns in the order of their names, each table with its rows
/// in any order, without keys and NOT NULL. Each database has such tables. The map-keys graph stands for them whether or not
/// keys are kept, and the map graph of a database that keeps its keys does so too, in whatever order its triples are listed.
/// The call does nothing; its clauses are the law.
pub fn graphs_stand(base: &Base, database: &Database)
    ensures some { (plain : List PlainTable) × IsPlain database.now plain }
    ensures map_keys { (triples : List Statement) (plain : List PlainTable) → IsPlain database.now plain → AreTriplesOf MapKeys base.now database.now triples → StandsFor base.now triples plain }
    ensures map { (triples : List Statement) (plain : List PlainTable) → KeepsKeys database.now → IsPlain database.now plain → AreTriplesOf Map base.now database.now triples → StandsFor base.now triples plain }
{
    database.schema();
}
