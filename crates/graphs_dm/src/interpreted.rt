// The map-keys graph contradicts itself exactly where a key is violated.
ghost use Rattle.graphs_dm.specs.Interpreted.{IsInterpretedWhereKept};

use facts_dm::naming_laws;
use names_dm::Base;
use table_csv::Database;

// The call does nothing; its clause is the law.
pub fn interpreted_where_kept(base: &Base, database: &Database)
    ensures { IsInterpretedWhereKept base.now database.now }
{
    naming_laws(base);
    let _text = base.as_str();
    let _schema = database.schema();
}
