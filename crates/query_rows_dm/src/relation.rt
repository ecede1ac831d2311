use names_dm::Vars;
use solutions_dm::Solutions;

/// Rows of numbers under the variables of attributes.
#[derive(Drop)]
pub struct Relation {
    pub attributes: Vars,
    pub rows: Solutions,
}
