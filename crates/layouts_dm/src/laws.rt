ghost use Rattle.layouts_dm.specs.LayoutTables.{SamePlain, StandsFor};
ghost use Rattle.layouts_dm.specs.Layouts.{Describes, Layout, WellFormed};
ghost use Rattle.layouts_dm.specs.Outcomes.{Applies, Cause, FirstBad};
ghost use Rattle.layouts_dm.specs.Rules.{Accepted, ReadOff};
ghost use Rattle.names_dm.specs.Statements.{Statement};
ghost use Rattle.std.specs.List.{AllZip};
ghost use Rattle.std.specs.Prelude.{◌≡◌, ◌≢◌, ℕ, List, []};
ghost use Rattle.table_csv.specs.Plain.{PlainTable};

use facts_dm::naming_laws;
use names_dm::Base;

/// A graph with exactly the triples of a well-formed layout is accepted: each triple is explained, no node has two values in
/// a column or two classes, and no pair of a relation lacks a value. The call does nothing; its clause is the law.
pub fn described_graphs_are_accepted(base: &Base)
    ensures { (L : Layout) (G : List Statement) → WellFormed L → Describes base.now L G → Accepted base.now G }
{
    naming_laws(base);
}

/// What is read off an accepted graph is a well-formed layout, and the graph has exactly its triples. The call does nothing;
/// its clauses are the law.
pub fn accepted_graphs_are_described(base: &Base)
    ensures well_formed { (G : List Statement) (L : Layout) → Accepted base.now G → ReadOff base.now G L → WellFormed L }
    ensures describes { (G : List Statement) (L : Layout) → Accepted base.now G → ReadOff base.now G L → Describes base.now L G }
{
    naming_laws(base);
}

/// The tables that a graph stands for are determined: any two lists of tables that it stands for have the same tables, with
/// the same rows in any order. The call does nothing; its clause is the law.
pub fn tables_are_determined(base: &Base)
    ensures { (G : List Statement) (tables others : List PlainTable) → StandsFor base.now G tables → StandsFor base.now G others → AllZip SamePlain tables others }
{
    naming_laws(base);
}

/// Of any list of triples exactly one is true: it is empty, it has a first triple to which a cause applies, and one cause
/// alone, or it stands for tables. The call does nothing; its clauses are the law: one cause at most applies to a triple, none
/// applies in a graph that stands for tables, an empty graph stands for none, and where there is a triple and no first bad
/// one, it can't be that the graph stands for no tables.
pub fn one_outcome(base: &Base)
    ensures one_cause { (G : List Statement) (i : ℕ) (cause other : Cause) → Applies base.now G i cause → Applies base.now G i other → cause ≡ other }
    ensures no_cause { (G : List Statement) (tables : List PlainTable) → StandsFor base.now G tables → (i : ℕ) (cause : Cause) → ¬ Applies base.now G i cause }
    ensures some_triple { (tables : List PlainTable) → ¬ StandsFor base.now [] tables }
    ensures some_outcome { (G : List Statement) → G ≢ [] → ((i : ℕ) (cause : Cause) → ¬ FirstBad base.now G i cause)
        → ¬ ((tables : List PlainTable) → ¬ StandsFor base.now G tables) }
{
    naming_laws(base);
}
