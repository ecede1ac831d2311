ghost use Rattle.std.specs.Prelude.{◌≡◌, ◌↔◌, length, IsSome, IfSome};

use crate::order::are_shape;
use crate::{ShapeTable, ShapeTables};
use std::alloc::{AllocError, Global};
use std::marker::Model;
use value_dm::TryCopy;

/// Tables without keys, which contracts see as a list. Tables and the columns of each stand in
/// strictly rising order of their names' bytes.
#[derive(Drop)]
pub struct Shape {
    tables: ShapeTables,
}

impl Model for Shape {
    ghost use Rattle.std.specs.Prelude.{List};
    ghost use Rattle.schema_dm.specs.declared.table.ShapeTable.{ShapeTable};
    ghost use Rattle.schema_dm.specs.Shapes.{IsShape};

    ghost Value = { List ShapeTable };

    ghost view = { λ shape. shape.tables };

    ghost invariant = { λ shape. IsShape shape.tables };
}

impl Shape {
    ghost use Rattle.schema_dm.specs.Shapes.{IsShape};

    /// The shape of the tables. Takes no memory. None exactly where there is no table or more than
    /// 4,096, a table has no column or more than 256, a name is empty or begins with U+FEFF, a column
    /// is `not_null`, or the names of tables or of a table's columns don't strictly rise by their bytes.
    pub fn new(tables: ShapeTables) -> Option<Shape>
        ensures shape { IsSome result ↔ IsShape tables }
        ensures value { IfSome result (λ shape. shape ≡ tables) }
    {
        if are_shape(tables.as_slice()) {
            Some(Shape { tables })
        } else {
            None
        }
    }

    /// The number of tables.
    pub fn len(&self) -> usize
        ensures { result ≡ length self.now }
    {
        self.tables.len()
    }

    /// The tables in order.
    pub fn as_slice(&self) -> &[ShapeTable]
        ensures value { result.now ≡ self.now }
        ensures shape { IsShape self.now }
    {
        self.tables.as_slice()
    }
}

impl TryCopy for Shape {
    fn copy(&self, alloc: Global) -> Result<Shape, AllocError> {
        Ok(Shape {
            tables: self.tables.copy(alloc)?,
        })
    }
}
