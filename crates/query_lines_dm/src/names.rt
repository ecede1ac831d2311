ghost use Rattle.std.specs.Prelude.{◌≡◌, ◌≢◌, [], IfOk, map};
ghost use Rattle.members_dm.specs.Membership.{IsIn};
ghost use Rattle.names_dm.specs.Variables.{variable_of};

use names_dm::{Var, Vars, variable};
use std::alloc::{AllocError, Global};
use value_dm::Text;

fn variable_of(alloc: Global, name: &Text) -> Result<Var, AllocError>
    requires { name.now ≢ [] }
    ensures { IfOk result (λ var. var ≡ variable_of name.now) }
{
    variable(alloc, name.as_str())
}

/// The variables of attributes, in their order. Refused for want of memory alone.
pub fn header(alloc: Global, names: &[Text]) -> Result<Vars, AllocError>
    requires { ¬ IsIn [] names.now }
    ensures { IfOk result (λ vars. vars ≡ map variable_of names.now) }
{
    let mut vars = Vars::new(alloc);
    for name in names {
        vars.push(variable_of(alloc, name)?)?;
    }
    Ok(vars)
}
