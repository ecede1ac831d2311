// The variables of names.
ghost use Rattle.std.specs.Prelude.{◌≡◌, ◌≢◌, [], IfOk, map};
ghost use Rattle.members_dm.specs.Elements.{Each};
ghost use Rattle.members_dm.specs.Membership.{IsIn};
ghost use Rattle.names_dm.specs.Variables.{variable_of};
ghost use Rattle.query_rows_dm.specs.Relations.{OwnsVariable};

use names_dm::{Var, Vars, variable};
use std::alloc::{AllocError, Global};
use value_dm::Text;

/// The variable of a name that isn't empty. Refused for want of memory alone.
pub fn variable_of(alloc: Global, name: &Text) -> Result<Var, AllocError>
    requires { name.now ≢ [] }
    ensures text { IfOk result (λ var. var ≡ variable_of name.now) }
    ensures owned { IfOk result (λ _. OwnsVariable name.now) }
{
    variable(alloc, name.as_str())
}

/// The variables of names that aren't empty. Refused for want of memory alone.
pub fn variables_of(alloc: Global, names: &[Text]) -> Result<Vars, AllocError>
    requires { ¬ IsIn [] names.now }
    ensures texts { IfOk result (λ vars. vars ≡ map variable_of names.now) }
    ensures owned { IfOk result (λ _. Each OwnsVariable names.now) }
{
    let mut vars = Vars::new(alloc);
    for name in names {
        vars.push(variable_of(alloc, name)?)?;
    }
    Ok(vars)
}
