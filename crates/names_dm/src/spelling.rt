ghost use Rattle.std.specs.Prelude.{◌≡◌, ◌++◌, IfOk, IsTrue, chars};
ghost use Rattle.names_dm.specs.IriSafe.{safe_form};
ghost use Rattle.std.specs.List.{list_all};
ghost use Rattle.names_dm.specs.Terminals.{is_mark};

use crate::base::Base;
use crate::iri::Iri;
use crate::iri_safe::push_safe;
use std::alloc::{AllocError, Global};
use std::marker::Model;
use value_dm::Text;

/// The text of an IRI as far as it is written: no character in it is forbidden. Contracts see its characters.
#[derive(Drop)]
pub struct Spelling {
    string: String,
}

impl Model for Spelling {
    ghost use Rattle.std.specs.Prelude.{List, ℕ, IsTrue, chars, string_bytes};
    ghost use Rattle.names_dm.specs.Terminals.{is_iri};

    ghost Value = { List ℕ };

    ghost view = { λ spelling. chars (string_bytes spelling.string) };

    ghost invariant = { λ spelling. IsTrue (is_iri (chars (string_bytes spelling.string))) };
}

impl Spelling {
    // The base.
    pub fn new(alloc: Global, base: &Base) -> Result<Spelling, AllocError>
        ensures { IfOk result (λ spelling. spelling ≡ base.now) }
    {
        Ok(Spelling {
            string: String::from_str(alloc, base.as_str())?,
        })
    }

    // The text with these ASCII characters after it.
    pub fn with(self, marks: &str) -> Result<Spelling, AllocError>
        requires { IsTrue (list_all is_mark marks.now) }
        ensures { IfOk result (λ longer. longer ≡ self ++ marks.now) }
    {
        let Spelling { mut string } = self;
        string.push_str(marks)?;
        Ok(Spelling { string })
    }

    // The text with the safe form of a name after it.
    pub fn with_safe(self, name: &str) -> Result<Spelling, AllocError>
        ensures { IfOk result (λ longer. longer ≡ self ++ safe_form (chars name.now)) }
    {
        let Spelling { mut string } = self;
        push_safe(&mut string, name)?;
        Ok(Spelling { string })
    }

    // The IRI of the text.
    pub fn into_iri(self, alloc: Global) -> Result<Iri, AllocError>
        ensures { IfOk result (λ iri. iri ≡ self) }
    {
        Ok(Iri::of_grammar(Text::from_str(alloc, self.string.as_str())?))
    }
}
