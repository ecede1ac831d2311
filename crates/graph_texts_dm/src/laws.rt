ghost use Rattle.graphs_dm.specs.Graphs.{AreTriplesOf, IsGraphText};
ghost use Rattle.graphs_dm.specs.declared.graph_name.GraphName.{GraphName};
ghost use Rattle.names_dm.specs.Statements.{Statement};
ghost use Rattle.ntriples_reader_dm.specs.Document.{IsDocument};
ghost use Rattle.std.specs.Prelude.{ℕ, List};

use names_dm::Base;
use table_csv::Database;

/// The text of each graph of a database is a document of N-Triples (RDF 1.1 N-Triples), and what it says are exactly the
/// graph's triples. The call does nothing; its clauses are the law.
pub fn texts_read_back(base: &Base, database: &Database)
    ensures document { (name : GraphName) (text : List ℕ) → IsGraphText name base.now database.now text → (triples : List Statement) × IsDocument text triples }
    ensures exact { (name : GraphName) (text : List ℕ) (triples : List Statement) → IsGraphText name base.now database.now text → IsDocument text triples → AreTriplesOf name base.now database.now triples }
{
    base.as_str();
    database.schema();
}
