// Lists of names in the order of their bytes, each name once.
ghost use Rattle.std.specs.Prelude.{◌≡◌, ◌≢◌, ◌⊎◌, ◌↔◌, ℕ, List, Any, IfOk, IsTrue};
ghost use Rattle.members_dm.specs.Elements.{Repeats};
ghost use Rattle.members_dm.specs.Membership.{IsIn};
ghost use Rattle.algebra_dm.specs.Attributes.{Lists};
ghost use Rattle.algebra_dm.specs.Checking.{AreThose};

use schema_dm::Index;
use std::alloc::{AllocError, Global};
use value_dm::{Names, Text, TryCopy, same};

/// The names, each once, in the order of their bytes.
pub fn rising(names: Vec<Text>) -> Names
    ensures { Lists (λ a. IsIn a names.items) result }
{
    let mut names = names;
    names.sort_unstable();
    names.dedup();
    Names::from_vec(names)
}

/// Whether the name is one of the names.
pub fn has(names: &Names, name: &Text) -> bool
    ensures { IsTrue result ↔ IsIn name.now names.now }
{
    names.as_slice().iter().any(|other| same(other, name))
}

// The names by their order.
fn index_of(alloc: Global, names: &Names) -> Result<Index<Text>, AllocError>
    ensures { IfOk result (λ index. index ≡ names.now) }
{
    Index::new(alloc, names.copy(alloc)?.into_vec())
}

// Whether the index has the name.
fn holds(index: &Index<Text>, name: &Text) -> bool
    ensures { IsTrue result ↔ IsIn name.now index.now }
{
    index.place(name).is_some()
}

/// Whether a name stands twice. Refused for want of memory alone.
pub fn repeats(alloc: Global, names: &Names) -> Result<bool, AllocError>
    ensures { IfOk result (λ told. IsTrue told ↔ Repeats names.now) }
{
    let index = index_of(alloc, names)?;
    Ok(index.repeats())
}

/// Whether one of the names isn't among the others. Refused for want of memory alone.
pub fn lacks_some(alloc: Global, names: &Names, others: &Names) -> Result<bool, AllocError>
    ensures { IfOk result (λ told. IsTrue told ↔ Any (λ a. ¬ IsIn a others.now) names.now) }
{
    let index = index_of(alloc, others)?;
    for name in names.as_slice() {
        if !holds(&index, name) {
            return Ok(true);
        }
    }
    Ok(false)
}

/// The names and one more. Refused for want of memory alone.
pub fn with(alloc: Global, names: &Names, name: &Text) -> Result<Names, AllocError>
    ensures { IfOk result (Lists (λ a. IsIn a names.now ⊎ (name.now ≡ a))) }
{
    let mut all = names.copy(alloc)?.into_vec();
    all.push(name.copy(alloc)?)?;
    Ok(rising(all))
}

/// The names of both lists. Refused for want of memory alone.
pub fn together(alloc: Global, names: &Names, more: &Names) -> Result<Names, AllocError>
    ensures { IfOk result (Lists (λ a. IsIn a names.now ⊎ IsIn a more.now)) }
{
    let mut all = names.copy(alloc)?.into_vec();
    for name in more.as_slice() {
        all.push(name.copy(alloc)?)?;
    }
    Ok(rising(all))
}

// The names that the index has.
fn held(alloc: Global, names: &[Text], index: &Index<Text>) -> Result<Vec<Text>, AllocError>
    ensures { IfOk result (λ kept. AreThose (λ a. IsIn a index.now) names.now kept.items) }
{
    let mut kept = Vec::new(alloc);
    for name in names {
        if holds(index, name) {
            kept.push(name.copy(alloc)?)?;
        }
    }
    Ok(kept)
}

/// The names that stand in both lists. Refused for want of memory alone.
pub fn shared(alloc: Global, names: &Names, others: &Names) -> Result<Names, AllocError>
    ensures { IfOk result (Lists (λ a. IsIn a names.now × IsIn a others.now)) }
{
    let index = index_of(alloc, others)?;
    let kept = held(alloc, names.as_slice(), &index)?;
    Ok(rising(kept))
}

fn is_other(name: &Text, from: &Text, to: &Text) -> bool
    ensures { IsTrue result ↔ ((from.now ≢ name.now) × (to.now ≢ name.now)) }
{
    !same(from, name) && !same(to, name)
}

// The names without two.
fn without(alloc: Global, names: &[Text], from: &Text, to: &Text) -> Result<Vec<Text>, AllocError>
    ensures { IfOk result (λ kept. AreThose (λ a. (from.now ≢ a) × (to.now ≢ a)) names.now kept.items) }
{
    let mut kept = Vec::new(alloc);
    for name in names {
        if is_other(name, from, to) {
            kept.push(name.copy(alloc)?)?;
        }
    }
    Ok(kept)
}

/// The names, where one is given a new name. Refused for want of memory alone.
pub fn renamed(alloc: Global, names: &Names, from: &Text, to: &Text) -> Result<Names, AllocError>
    ensures { IfOk result (Lists (λ a. ((to.now ≡ a) × IsIn from.now names.now) ⊎ (IsIn a names.now × (from.now ≢ a) × (to.now ≢ a)))) }
{
    let mut all = without(alloc, names.as_slice(), from, to)?;
    if has(names, from) {
        all.push(to.copy(alloc)?)?;
    }
    Ok(rising(all))
}
