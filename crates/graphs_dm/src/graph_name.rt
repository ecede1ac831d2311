/// The graphs of a database.
#[derive(Clone, Copy, Debug, PartialEq, Eq)]
pub enum GraphName {
    /// The rows alone: A Direct Mapping of Relational Data to RDF.
    Direct,
    /// An ontology and the rows, where each row of a binary relation is one link. Of databases that keep their keys.
    Map,
    /// An ontology and the rows, where each table is a class, and the nodes of rows that violate a key are marked as different
    /// from themselves.
    MapKeys,
}
