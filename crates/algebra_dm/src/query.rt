use sqlite_items::Boxed;
use std::alloc::{AllocError, Global};
use value_dm::{Names, Text, TryCopy, Value};

/// A query in the algebra over tables. `Table` has the rows of a table, and `Null` the one tuple that has NULL in its one
/// attribute. `Eq` and `Ne` select the tuples whose attribute is not NULL and equal to the value, or another; `IsNull` and
/// `NotNull` select by NULL alone. `Project` keeps the attributes that it names, and `Rename` gives the first name's
/// attribute the second name. `Join` is the natural join, in which NULL is equal to nothing; `Union` and `Diff` are those
/// of sets of tuples, in which NULL is equal to NULL.
#[derive(Drop)]
pub enum Query {
    Table(Text),
    Null(Text),
    Eq(Boxed<Query>, Text, Value),
    Ne(Boxed<Query>, Text, Value),
    IsNull(Boxed<Query>, Text),
    NotNull(Boxed<Query>, Text),
    Project(Boxed<Query>, Names),
    Rename(Boxed<Query>, Text, Text),
    Join(Boxed<Query>, Boxed<Query>),
    Union(Boxed<Query>, Boxed<Query>),
    Diff(Boxed<Query>, Boxed<Query>),
}

/// Which databases a graph is made of: `Map`, those that keep all their keys; `MapKeys`, any.
#[derive(Clone, Copy, Debug, PartialEq, Eq)]
pub enum Mode {
    Map,
    MapKeys,
}

impl TryCopy for Query {
    fn copy(&self, alloc: Global) -> Result<Query, AllocError> {
        match self {
            Query::Table(name) => Ok(Query::Table(name.copy(alloc)?)),
            Query::Null(name) => Ok(Query::Null(name.copy(alloc)?)),
            Query::Eq(part, name, value) => {
                let part = Boxed::new(alloc, part.get().copy(alloc)?)?;
                Ok(Query::Eq(part, name.copy(alloc)?, value.copy(alloc)?))
            }
            Query::Ne(part, name, value) => {
                let part = Boxed::new(alloc, part.get().copy(alloc)?)?;
                Ok(Query::Ne(part, name.copy(alloc)?, value.copy(alloc)?))
            }
            Query::IsNull(part, name) => {
                let part = Boxed::new(alloc, part.get().copy(alloc)?)?;
                Ok(Query::IsNull(part, name.copy(alloc)?))
            }
            Query::NotNull(part, name) => {
                let part = Boxed::new(alloc, part.get().copy(alloc)?)?;
                Ok(Query::NotNull(part, name.copy(alloc)?))
            }
            Query::Project(part, names) => {
                let part = Boxed::new(alloc, part.get().copy(alloc)?)?;
                Ok(Query::Project(part, names.copy(alloc)?))
            }
            Query::Rename(part, from, to) => {
                let part = Boxed::new(alloc, part.get().copy(alloc)?)?;
                Ok(Query::Rename(part, from.copy(alloc)?, to.copy(alloc)?))
            }
            Query::Join(left, right) => {
                let left = Boxed::new(alloc, left.get().copy(alloc)?)?;
                let right = Boxed::new(alloc, right.get().copy(alloc)?)?;
                Ok(Query::Join(left, right))
            }
            Query::Union(left, right) => {
                let left = Boxed::new(alloc, left.get().copy(alloc)?)?;
                let right = Boxed::new(alloc, right.get().copy(alloc)?)?;
                Ok(Query::Union(left, right))
            }
            Query::Diff(left, right) => {
                let left = Boxed::new(alloc, left.get().copy(alloc)?)?;
                let right = Boxed::new(alloc, right.get().copy(alloc)?)?;
                Ok(Query::Diff(left, right))
            }
        }
    }
}
