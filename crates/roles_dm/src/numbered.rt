// Triples by the numbers of their terms.
ghost use Rattle.std.specs.Prelude.{◌≡◌, IfOk, map};
ghost use Rattle.roles_dm.specs.Numbered.{of_triad};

use std::alloc::{AllocError, Global};
use store_dm::Triad;

/// The numbers of a triple's terms.
#[derive(Clone, Copy, Debug, PartialEq, Eq)]
pub struct Numbered {
    pub subject: u32,
    pub predicate: u32,
    pub object: u32,
}

// The numbers of a triad that begins with the subject.
fn make_numbered(triad: Triad) -> Numbered
    ensures { result ≡ of_triad triad }
{
    Numbered {
        subject: triad.first,
        predicate: triad.second,
        object: triad.third,
    }
}

/// The numbers of triads that begin with the subjects, in order. Refused for want of memory alone.
pub fn all_numbered(alloc: Global, triads: &[Triad]) -> Result<Vec<Numbered>, AllocError>
    ensures { IfOk result (λ made. made.items ≡ map of_triad triads.now) }
{
    let mut made = Vec::new(alloc);
    for triad in triads {
        made.push(make_numbered(*triad))?;
    }
    Ok(made)
}
