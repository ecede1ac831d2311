// Why a triple is bad.

/// Why a triple of a graph is bad.
#[derive(Clone, Copy, Debug, PartialEq, Eq)]
pub enum Cause {
    /// It says nothing that the graph explains.
    Unexplained,
    /// An earlier triple gives the node another value in the column.
    TwoValues,
    /// An earlier triple gives the node another class.
    TwoTables,
    /// It is a pair of a relation, and no triple gives one of its nodes a value in the relation's column.
    NoKeyValue,
}

/// A triple to which a cause applies.
#[derive(Clone, Copy, Debug, PartialEq, Eq)]
pub struct BadTriple {
    /// Which triple it is; the first one is 1.
    pub place: u64,
    pub cause: Cause,
}
