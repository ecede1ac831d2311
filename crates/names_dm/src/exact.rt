use crate::base::Base;
use crate::iri::Iri;
use crate::label::Label;
use crate::literal::{Literal, LiteralType};
use crate::tag::Tag;
use crate::term::Term;
use crate::triple::Triple;
use crate::var::Var;
use value_dm::ExactEq;

impl ExactEq for Iri {
    ghost use Rattle.value_dm.specs.Equality.{numbers_decide};

    ghost decides = { numbers_decide };
}

impl ExactEq for Label {
    ghost use Rattle.value_dm.specs.Equality.{numbers_decide};

    ghost decides = { numbers_decide };
}

impl ExactEq for Tag {
    ghost use Rattle.value_dm.specs.Equality.{numbers_decide};

    ghost decides = { numbers_decide };
}

impl ExactEq for Var {
    ghost use Rattle.value_dm.specs.Equality.{numbers_decide};

    ghost decides = { numbers_decide };
}

impl ExactEq for Base {
    ghost use Rattle.value_dm.specs.Equality.{numbers_decide};

    ghost decides = { numbers_decide };
}

impl ExactEq for LiteralType {
    ghost use Rattle.names_dm.specs.Decided.{literal_types_decide};

    ghost decides = { literal_types_decide };
}

impl ExactEq for Literal {
    ghost use Rattle.names_dm.specs.Decided.{literals_decide};

    ghost decides = { literals_decide };
}

impl ExactEq for Term {
    ghost use Rattle.names_dm.specs.Decided.{terms_decide};

    ghost decides = { terms_decide };
}

impl ExactEq for Triple {
    ghost use Rattle.names_dm.specs.Decided.{triples_decide};

    ghost decides = { triples_decide };
}
