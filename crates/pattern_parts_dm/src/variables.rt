// Variables and terms of patterns.
ghost use Rattle.std.specs.Prelude.{◌≡◌, ◌≢◌, [], IfOk, IsTrue};
ghost use Rattle.value_dm.specs.Lawful.{IsLawful};
ghost use Rattle.names_dm.specs.Terminals.{is_variable};
ghost use Rattle.names_dm.specs.Variables.{variable_of};
ghost use Rattle.keeping_dm.specs.Guards.{marker, right_variable, value_literal};
ghost use Rattle.table_patterns_dm.specs.TablePatterns as tables;

use facts_dm::literal_type;
use names_dm::{Literal, Var, variable};
use std::alloc::{AllocError, Global};
use value_dm::{Text, Value, lexical};

/// The natural literal of a value (R2RML, section 10.2), and that the value obeys the rules of its type. Refused for want
/// of memory alone.
pub fn literal_of(alloc: Global, value: &Value) -> Result<Literal, AllocError>
    ensures literal { IfOk result (λ literal. literal ≡ value_literal value.now) }
    ensures lawful { IsLawful value.now }
{
    let text = Text::from_string(lexical(alloc, value)?);
    let kind = literal_type(alloc, value.kind())?;
    Ok(Literal::new(text, kind))
}

/// The variable of an attribute (SPARQL 1.1 Query Language, section 4.1.3), whose name is not empty. Refused for want of
/// memory alone.
pub fn variable_of(alloc: Global, name: &Text) -> Result<Var, AllocError>
    requires { name.now ≢ [] }
    ensures { IfOk result (λ var. var ≡ variable_of name.now) }
{
    variable(alloc, name.as_str())
}

// The variable of this text.
fn reserved(text: Text) -> Var
    requires { IsTrue (is_variable text) }
    ensures { result ≡ text }
{
    Var::new(text).unwrap()
}

/// The variable of an attribute in the right part of a difference.
pub fn right_variable(alloc: Global, name: &Text) -> Result<Var, AllocError>
    requires { name.now ≢ [] }
    ensures { IfOk result (λ var. var ≡ right_variable name.now) }
{
    let own = variable_of(alloc, name)?;
    let mut text = String::from_str(alloc, "_q")?;
    text.push_str(own.as_str())?;
    Ok(reserved(Text::from_string(text)))
}

/// The variable that is bound where the right part of a difference has a tuple like the left part's.
pub fn marker(alloc: Global) -> Result<Var, AllocError>
    ensures { IfOk result (λ var. var ≡ marker) }
{
    Ok(reserved(Text::from_str(alloc, "_m")?))
}

/// The variable of a row's node, which is no attribute's. Refused for want of memory alone.
pub fn row_variable(alloc: Global) -> Result<Var, AllocError>
    ensures { IfOk result (λ var. var ≡ tables.row_variable) }
{
    Ok(reserved(Text::from_str(alloc, "_r")?))
}

/// The variable of the node that a relation leads to, which is no attribute's. Refused for want of memory alone.
pub fn second_variable(alloc: Global) -> Result<Var, AllocError>
    ensures { IfOk result (λ var. var ≡ tables.second_variable) }
{
    Ok(reserved(Text::from_str(alloc, "_s")?))
}
