// Laws of the definitions.
ghost use Rattle.std.specs.Prelude.{◌≡◌, ℕ, List, Option, All};
ghost use Rattle.std.specs.List.{flat_map};
ghost use Rattle.names_dm.specs.Statements.{Statement};
ghost use Rattle.ntriples_dm.specs.Written.{triple_text};
ghost use Rattle.ntriples_reader_dm.specs.Document.{IsDocument};
ghost use Rattle.ntriples_reader_dm.specs.Grammar.{IsLine};
ghost use Rattle.ntriples_reader_dm.specs.Lawful.{IsLawful};

/// A line says one thing, and a document one list of triples. The call does nothing; its clauses are the law.
pub fn one_meaning()
    ensures line { (bytes : List ℕ) (x y : Option Statement) → IsLine bytes x → IsLine bytes y → x ≡ y }
    ensures document { (bytes : List ℕ) (ts us : List Statement) → IsDocument bytes ts → IsDocument bytes us → ts ≡ us }
{}

/// The lines of triples in their written form are a document of these triples, for all triples whose texts are of
/// their types. The call does nothing; its clause is the law.
pub fn written_text()
    ensures { (triples : List Statement) → All IsLawful triples → IsDocument (flat_map triple_text triples) triples }
{}
