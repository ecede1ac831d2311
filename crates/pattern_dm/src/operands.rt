// Operands as terms, and as parts of a triple to look for.
ghost use Rattle.std.specs.Prelude.{◌≡◌, IfOk};
ghost use Rattle.names_dm.specs.declared.term.Term.{Term as TheTerm};
ghost use Rattle.store_dm.specs.Slots.{IsBound};
ghost use Rattle.pattern_dm.specs.Sides.{IsSlotOf, side_of};

use crate::pattern::Operand;
use names_dm::{Term, Var};
use std::alloc::{AllocError, Global};
use store_dm::{Graph, Slot};
use value_dm::TryCopy;

/// An operand: a variable, or a term.
#[derive(Drop)]
pub enum Side {
    Var(Var),
    Term(Term),
}

// The operand as a variable or a term.
pub fn side_of(alloc: Global, operand: &Operand) -> Result<Side, AllocError>
    ensures { IfOk result (λ side. side ≡ side_of operand.now) }
{
    match operand {
        Operand::Var(name) => Ok(Side::Var(name.copy(alloc)?)),
        Operand::Iri(iri) => Ok(Side::Term(Term::Iri(iri.copy(alloc)?))),
        Operand::Literal(literal) => Ok(Side::Term(Term::Literal(literal.copy(alloc)?))),
    }
}

// The part of a triple to look for.
pub fn slot_of(alloc: Global, operand: &Operand, graph: &Graph) -> Result<Slot, AllocError>
    ensures { IfOk result (λ slot. IsSlotOf graph.now operand.now slot) }
{
    match side_of(alloc, operand)? {
        Side::Var(name) => Ok(Slot::Var(name)),
        Side::Term(term) => match graph.id_of(&term) {
            Some(number) => Ok(Slot::Fixed(number)),
            None => Ok(Slot::Missing),
        },
    }
}
