/// Which empty fields are NULL: those of columns of another kind than text, or all.
#[derive(Clone, Copy, Debug, PartialEq, Eq)]
pub enum NullMode {
    Plain,
    EmptyNull,
}
