ghost use Rattle.facts_dm.specs.Meanings.{NamingLaws};

use names_dm::Base;

/// What every base keeps: below it each name is read from its IRI, no name has the IRI of a word of the vocabularies,
/// and a triple says one thing only. The call does nothing; its clause is the law.
#[tactic(auto, using(crate::proofs::NamingInstance::naming_laws))]
pub fn naming_laws(base: &Base)
    ensures { NamingLaws base.now }
{
    let _text = base.as_str();
}
