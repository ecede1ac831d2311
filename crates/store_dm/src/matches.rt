// The matches of a look-up, one by one.
ghost use Rattle.std.specs.Prelude.{◌≡◌};
ghost use Rattle.store_dm.specs.Turns as spec;

use crate::listing::Triad;

/// Which number of a triple a list's triads begin with.
#[derive(Clone, Copy, Debug, PartialEq, Eq)]
pub enum Beginning {
    Subject,
    Predicate,
    Object,
}

// The numbers of subject, predicate and object.
pub fn numbers(beginning: Beginning, x: Triad) -> (u32, u32, u32)
    ensures { result ≡ spec.numbers beginning x }
{
    match beginning {
        Beginning::Subject => (x.first, x.second, x.third),
        Beginning::Predicate => (x.third, x.first, x.second),
        Beginning::Object => (x.second, x.third, x.first),
    }
}

/// The numbers of subject, predicate and object of each match.
#[derive(Drop)]
pub struct Matches<'a> {
    pub(crate) triads: &'a [Triad],
    pub(crate) beginning: Beginning,
}

impl<'a> Iterator for Matches<'a> {
    type Item = (u32, u32, u32);

    ghost use Rattle.std.specs.Iterator.{YieldsFirst, item_count};
    ghost use Rattle.store_dm.specs.Turns.{matches_left};

    ghost next_gives = { YieldsFirst matches_left };

    ghost remaining = { item_count matches_left };

    fn next(&mut self) -> Option<(u32, u32, u32)> {
        let (first, others) = self.triads.split_first()?;
        self.triads = others;
        Some(numbers(self.beginning, *first))
    }
}
