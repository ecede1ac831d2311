ghost use Rattle.std.specs.Prelude.{◌≡◌, IfOk};
ghost use Rattle.schema_dm.specs.Indexed.{IsSortedForm};

use std::alloc::{AllocError, Global};
use std::cmp::Ordering;
use std::marker::Model;
use value_dm::{ExactEq, Names, Text, TryCopy};

/// Names in order. Lists of names are ordered by their first names, and where these are one by the
/// rest.
#[derive(Drop)]
pub struct NameList {
    names: Vec<Text>,
}

impl Model for NameList {
    ghost use Rattle.std.specs.Prelude.{List, ℕ};

    ghost Value = { List (List ℕ) };

    ghost view = { λ list. list.names.items };
}

impl NameList {
    /// The names as they stand. Refused for want of memory alone.
    pub fn from_names(alloc: Global, names: &Names) -> Result<NameList, AllocError>
        ensures { IfOk result (λ list. list ≡ names.now) }
    {
        Ok(NameList {
            names: names.copy(alloc)?.into_vec(),
        })
    }

    /// The names in their order. Refused for want of memory alone.
    pub fn sorted(alloc: Global, names: &Names) -> Result<NameList, AllocError>
        ensures { IfOk result (IsSortedForm names.now) }
    {
        let mut names = names.copy(alloc)?.into_vec();
        names.sort_unstable();
        Ok(NameList { names })
    }
}

impl PartialEq for NameList {
    ghost use Rattle.std.specs.Prelude.{nat_eq};
    ghost use Rattle.std.specs.Cmp.{partial_equiv_from_equiv};
    ghost use Rattle.std.specs.Cmp.Lexicographic.{lists_equiv, nat_list_eq_equiv, pointwise};

    ghost eq = { pointwise (pointwise nat_eq) };

    ghost laws = { partial_equiv_from_equiv (lists_equiv nat_list_eq_equiv) };

    fn eq(&self, other: &NameList) -> bool {
        self.names == other.names
    }
}

impl Eq for NameList {
    ghost use Rattle.std.specs.Cmp.Lexicographic.{lists_equiv, nat_list_eq_equiv};

    ghost laws = { lists_equiv nat_list_eq_equiv };
}

impl ExactEq for NameList {
    ghost use Rattle.value_dm.specs.Equality.{lists_decide, numbers_decide};

    ghost decides = { lists_decide numbers_decide };
}

impl Ord for NameList {
    ghost use Rattle.std.specs.Cmp.Lexicographic.{lists_ties, slice_cmp};
    ghost use Rattle.std.specs.Cmp.Rules.{comparing};
    ghost use Rattle.std.proofs.Common.{rules};
    ghost use Rattle.value_dm.specs.Order.{byte_cmp, byte_cmp_ties};

    ghost cmp = { slice_cmp byte_cmp };

    ghost total = { Prim.search (comparing, rules) };

    ghost matches_partial_cmp = { Prim.search (comparing, rules) };

    ghost matches_eq = { lists_ties byte_cmp byte_cmp_ties };

    fn cmp(&self, other: &NameList) -> Ordering {
        self.names.cmp(&other.names)
    }
}

impl PartialOrd for NameList {
    ghost use Rattle.std.specs.Cmp.{partial_order_from_own_ties};
    ghost use Rattle.std.specs.Cmp.Lexicographic.{lists_ties, slice_cmp};
    ghost use Rattle.std.specs.Cmp.Rules.{comparing};
    ghost use Rattle.std.specs.Ordering.{as_partial_cmp};
    ghost use Rattle.std.proofs.Common.{rules};
    ghost use Rattle.value_dm.specs.Order.{byte_cmp, byte_cmp_ties};

    ghost partial_cmp = { as_partial_cmp (slice_cmp byte_cmp) };

    ghost laws = { partial_order_from_own_ties (Prim.search (comparing, rules)) (lists_ties byte_cmp byte_cmp_ties) };

    fn partial_cmp(&self, other: &NameList) -> Option<Ordering> {
        Some(self.cmp(other))
    }
}
