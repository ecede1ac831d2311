/// What joins two patterns.
#[derive(Clone, Copy, Debug, Drop)]
pub(crate) enum Pairing {
    And,
    Union,
    Minus,
}
