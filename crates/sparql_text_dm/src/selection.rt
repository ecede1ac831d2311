// The targets that were read, and their new names in order.
ghost use Rattle.std.specs.Prelude.{◌≡◌, [], ◌∷◌, ◌++◌, OnOk, IfOk};
ghost use Rattle.solutions_dm.specs.Selects.{is_target};

use names_dm::Var;
use solutions_dm::{Rename, Renames};
use std::alloc::{AllocError, Global};
use std::collections::BTreeSet;
use std::marker::Model;
use value_dm::Sequence;

/// Renames, of which the new names stand in a set: so a long list of targets takes little more time than as many short ones.
/// Contracts see the renames.
#[derive(Drop)]
pub(crate) struct Selection {
    renames: Renames,
    names: BTreeSet<String>,
}

impl Model for Selection {
    ghost use Rattle.std.specs.Prelude.{List};
    ghost use Rattle.solutions_dm.specs.declared.selects.Rename.{Rename};
    ghost use Rattle.sparql_text_dm.specs.NewNames.{AreNewNames};

    ghost Value = { List Rename };

    ghost view = { λ selection. selection.renames };

    ghost invariant = { λ selection. AreNewNames selection.renames selection.names };
}

impl Selection {
    /// No renames. Takes no memory.
    pub(crate) fn new(alloc: Global) -> Selection
        ensures { result ≡ [] }
    {
        Selection {
            renames: Sequence::new(alloc),
            names: BTreeSet::new(alloc),
        }
    }

    /// Whether one of the renames has this new name.
    pub(crate) fn has(&self, name: &Var) -> bool
        ensures { result ≡ is_target self.now name.now }
    {
        self.names.contains(name.as_str())
    }

    /// These renames and one more. Refused for want of memory alone.
    pub(crate) fn with(self, alloc: Global, rename: Rename) -> Result<Selection, AllocError>
        ensures { IfOk result (λ made. made ≡ self ++ rename ∷ []) }
    {
        let Selection {
            mut renames,
            mut names,
        } = self;
        names.insert(String::from_str(alloc, rename.to.as_str())?)?;
        renames.push(rename)?;
        Ok(Selection { renames, names })
    }

    /// The renames, in order.
    pub(crate) fn into_renames(self) -> Renames
        ensures { result ≡ self }
    {
        self.renames
    }
}
