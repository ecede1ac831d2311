/// Why a triple contradicts the triples that it stands among.
#[derive(Clone, Copy, Debug, PartialEq, Eq)]
pub enum ConflictKind {
    /// It says that a node differs from itself.
    SameNode,
    /// A range that is stated for its predicate cannot let its object in.
    Range,
}

/// Whether triples have an interpretation, or else the number of the first triple that is a conflict, counted from 1 with
/// repeats, and its kind.
#[derive(Clone, Copy, Debug, PartialEq, Eq)]
pub enum Verdict {
    Yes,
    Conflict(u64, ConflictKind),
}
