// The terms of a graph and their numbers.
ghost use Rattle.std.specs.Prelude.{◌≡◌, ℕ, ◌+◌, ◌-◌, ◌<◌, ◌≤◌, ◌^◌, ◌↔◌, [], length, slice_get, Contains, IsSome, IfSome, IfOk, OnErr, Some};
ghost use Rattle.store_dm.specs.Terms.{AreOneToOne, IsNumbered, term_at};

use indexmap::IndexSet;
use names_dm::Term;
use std::alloc::{AllocError, AllocFailed, Global};
use std::marker::Model;
use value_dm::TryCopy;

/// The terms of a graph, each with a number: its place plus 1. A contract sees it as the list of the terms.
#[derive(Drop)]
pub struct Dictionary {
    terms: IndexSet<Term>,
}

impl Model for Dictionary {
    ghost use Rattle.std.specs.Prelude.{List};
    ghost use Rattle.names_dm.specs.declared.term.Term.{Term};

    ghost Value = { List Term };

    ghost view = { λ d. d.terms.keys };
}

impl Dictionary {
    pub fn new(alloc: Global) -> Dictionary
        ensures { result ≡ [] }
    {
        Dictionary {
            terms: IndexSet::new(alloc),
        }
    }

    /// How many terms there are.
    pub fn len(&self) -> usize
        ensures { result ≡ length self.now }
    {
        self.terms.len()
    }

    /// The number of a term, which is added where it is new.
    pub fn number(&mut self, term: Term) -> Result<u32, AllocFailed<Term>>
        requires { length self.old < 2 ^ 32 - 1 }
        ensures number { IfOk result (λ n. IsNumbered self.old self.new term n) }
        ensures apart { AreOneToOne self.new }
    {
        let (index, _) = self.terms.insert_full(term)?;
        Ok(index as u32 + 1)
    }

    /// The number of a term, which is copied and added where it is new.
    pub fn number_copied(&mut self, alloc: Global, term: &Term) -> Result<u32, AllocError>
        requires small { length self.old < 2 ^ 32 - 1 }
        requires apart { AreOneToOne self.old }
        ensures number { IfOk result (λ n. IsNumbered self.old self.new term.now n) }
        ensures apart { AreOneToOne self.new }
    {
        match self.id_of(term) {
            Some(number) => Ok(number),
            None => Ok(self.number(term.copy(alloc)?)?),
        }
    }

    /// The number of a term, where it has one.
    pub fn id_of(&self, term: &Term) -> Option<u32>
        requires { length self.now < 2 ^ 32 }
        ensures places { IfSome result (λ n. term_at self.now n ≡ Some term.now) }
        ensures found { IsSome result ↔ Contains self.now term.now }
    {
        let index = self.terms.get_index_of(term)?;
        Some(index as u32 + 1)
    }

    /// The term of a number.
    pub fn term_of(&self, id: u32) -> &Term
        requires low { 1 ≤ id }
        requires high { id ≤ length self.now }
        ensures { term_at self.now id ≡ Some result.now }
    {
        &self.terms[id as usize - 1]
    }
}
