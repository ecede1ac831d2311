ghost use Rattle.std.specs.Prelude.{◌≡◌, ◌↔◌, ℕ, List, map};
ghost use Rattle.names_dm.specs.Statements.{Statement};
ghost use Rattle.names_dm.specs.Variables.{variable_of};
ghost use Rattle.schema_dm.specs.Naming.{Name};
ghost use Rattle.table_csv.specs.Databases.{Data};
ghost use Rattle.algebra_dm.specs.Attributes.{AreAttributes};
ghost use Rattle.algebra_dm.specs.Nodes.{IsWellFormed};
ghost use Rattle.algebra_dm.specs.Tuples.{IsTuple};
ghost use Rattle.algebra_dm.specs.declared.query.Query.{Query};
ghost use Rattle.pattern_dm.specs.declared.pattern.Pattern.{Pattern};
ghost use Rattle.keeping_dm.specs.Keeping.{Keeps};
ghost use Rattle.query_lines_dm.specs.Lines.{AreQueryLines};
ghost use Rattle.pattern_lines_dm.specs.Lines.{AreSolutionLines, StandsIn};

/// What the lines of a pattern's solutions are: one text, which is there, said by double negation; and where the pattern keeps
/// a well-formed query's tuples over the triples, and the header has the variables of the query's attributes, the lines of the
/// query's rows. The call does nothing; its clauses are the laws.
pub fn lines_are_determined()
    ensures one { (triples : List Statement) (p : Pattern) (header : List (List ℕ)) (text other : List ℕ) → AreSolutionLines triples p header text → AreSolutionLines triples p header other → text ≡ other }
    ensures some { (triples : List Statement) (p : Pattern) (header : List (List ℕ)) → ¬ ((text : List ℕ) → ¬ AreSolutionLines triples p header text) }
    ensures kept { (D : Data) (q : Query) (triples : List Statement) (p : Pattern) (names : List Name) (text : List ℕ) → IsWellFormed D.tables q → Keeps (StandsIn triples) p (IsTuple D q)
        → AreAttributes D.tables q names → AreSolutionLines triples p (map variable_of names) text ↔ AreQueryLines D q text }
{}
