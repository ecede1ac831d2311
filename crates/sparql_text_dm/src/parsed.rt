use names_dm::Vars;
use pattern_dm::Pattern;
use sqlite_items::Boxed;

/// The variables of a query's header, and its pattern.
#[derive(Drop)]
pub struct Parsed {
    pub header: Vars,
    pub pattern: Boxed<Pattern>,
}
