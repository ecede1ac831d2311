// What a triple says, told by the roles of its terms.
ghost use Rattle.std.specs.Prelude.{◌≡◌, ◌≢◌, IfOk, List, ℕ};
ghost use Rattle.names_dm.specs.Statements.{Statement, is_literal};
ghost use Rattle.names_dm.specs.declared.term.Term.TheVariants as term;
ghost use Rattle.store_dm.specs.Graphs.{GraphValue};
ghost use Rattle.facts_dm.specs.Facts.{word_term};
ghost use Rattle.facts_dm.specs.Vocabulary.{word_iri};
ghost use Rattle.facts_dm.specs.declared.word.Word.TheVariants.{OwlClass, OwlDatatypeProperty, OwlDifferentFrom, OwlObjectProperty, RdfType, RdfsDomain, RdfsRange};
ghost use Rattle.roles_dm.specs.Columned.{AreColumned};
ghost use Rattle.roles_dm.specs.Findings.{Finds, IsPlainProperty, IsTripleOf};
ghost use Rattle.roles_dm.specs.Roles.{IsColumnRole, IsLinkRole, IsRole};
ghost use Rattle.names_dm.specs.declared.names.RefName.{RefName};
ghost use Rattle.names_dm.specs.declared.names.RelName.{RelName};
ghost use Rattle.roles_dm.specs.declared.numbered.Numbered.{Numbered as TheNumbers};
ghost use Rattle.roles_dm.specs.declared.role.LinkName.TheVariants.{Reference, Relation};
ghost use Rattle.roles_dm.specs.declared.role.Role.{Role as TheRole};
ghost use Rattle.roles_dm.specs.declared.words.Words.{Words as TheWords};

use crate::canonical::is_canonical;
use crate::columned::Columned;
use crate::numbered::Numbered;
use crate::numbers::{has, role_numbered};
use crate::role::{ColumnRole, LinkName, LinkRole, Role};
use crate::words::Words;
use names_dm::Term;
use std::alloc::{AllocError, Global};
use store_dm::Graph;

/// What a triple says.
#[derive(Clone, Copy, Debug, PartialEq, Eq)]
pub enum Finding {
    /// Nothing that the graph explains.
    Unexplained,
    /// Something explained that no other triple makes bad.
    Free,
    /// The class of a node, explained.
    Class,
    /// A value of a node, explained.
    Value,
    /// A pair of a relation, explained, with the numbers of the columns in which its two nodes need values.
    Pair { left: u32, right: u32 },
    /// That a node differs from itself, which is explained where the node is one of a class.
    Mark,
}

// What it says that a term is a class, which is explained where the class has a column.
fn class_finding(columned: &Columned, subject: &Role, numbers: Numbered) -> Finding
    ensures { (base : List ℕ) (g : GraphValue) (w : TheWords) (rs : List TheRole) (G : List Statement) (x : Statement) → IsTripleOf base g w rs G x numbers → AreColumned rs columned.now → IsRole base g G x.subject subject.now
        → x.predicate ≡ word_iri RdfType → x.object ≡ word_term OwlClass → Finds base g G x result }
{
    match subject {
        Role::Class(_) => {
            if columned.has(numbers.subject) {
                Finding::Free
            } else {
                Finding::Unexplained
            }
        }
        Role::Column(_) => Finding::Unexplained,
        Role::Link(_) => Finding::Unexplained,
        Role::Nothing => Finding::Unexplained,
    }
}

// What it says that a term is a property with literals.
fn literals_finding(subject: &Role) -> Finding
    ensures { (base : List ℕ) (g : GraphValue) (w : TheWords) (rs : List TheRole) (G : List Statement) (x : Statement) (n : TheNumbers) → IsTripleOf base g w rs G x n → IsRole base g G x.subject subject.now
        → x.predicate ≡ word_iri RdfType → x.object ≡ word_term OwlDatatypeProperty → Finds base g G x result }
{
    match subject {
        Role::Column(_) => Finding::Free,
        Role::Class(_) => Finding::Unexplained,
        Role::Link(_) => Finding::Unexplained,
        Role::Nothing => Finding::Unexplained,
    }
}

// What it says that a term is a property with nodes.
fn nodes_finding(subject: &Role) -> Finding
    ensures { (base : List ℕ) (g : GraphValue) (w : TheWords) (rs : List TheRole) (G : List Statement) (x : Statement) (n : TheNumbers) → IsTripleOf base g w rs G x n → IsRole base g G x.subject subject.now
        → x.predicate ≡ word_iri RdfType → x.object ≡ word_term OwlObjectProperty → Finds base g G x result }
{
    match subject {
        Role::Link(_) => Finding::Free,
        Role::Class(_) => Finding::Unexplained,
        Role::Column(_) => Finding::Unexplained,
        Role::Nothing => Finding::Unexplained,
    }
}

// What it says that a term is a node of a class.
fn node_finding(object: &Role) -> Finding
    ensures { (base : List ℕ) (g : GraphValue) (w : TheWords) (rs : List TheRole) (G : List Statement) (x : Statement) (n : TheNumbers) → IsTripleOf base g w rs G x n → IsRole base g G x.object object.now
        → x.predicate ≡ word_iri RdfType → x.object ≢ word_term OwlClass → x.object ≢ word_term OwlDatatypeProperty → x.object ≢ word_term OwlObjectProperty → Finds base g G x result }
{
    match object {
        Role::Class(_) => Finding::Class,
        Role::Column(_) => Finding::Unexplained,
        Role::Link(_) => Finding::Unexplained,
        Role::Nothing => Finding::Unexplained,
    }
}

// What a triple with rdf:type says.
fn type_finding(
    words: &Words,
    roles: &[Role],
    columned: &Columned,
    subject: &Role,
    numbers: Numbered,
) -> Finding
    ensures { (base : List ℕ) (g : GraphValue) (G : List Statement) (x : Statement) → IsTripleOf base g words.now roles.now G x numbers → AreColumned roles.now columned.now → IsRole base g G x.subject subject.now
        → x.predicate ≡ word_iri RdfType → Finds base g G x result }
{
    if numbers.object == words.class {
        return class_finding(columned, subject, numbers);
    }
    if numbers.object == words.datatype_property {
        return literals_finding(subject);
    }
    if numbers.object == words.object_property {
        return nodes_finding(subject);
    }
    match role_numbered(roles, numbers.object) {
        Some(object) => node_finding(object),
        None => Finding::Unexplained,
    }
}

// What is told by whether two numbers are the same.
fn free_where_same(one: u32, other: u32) -> Finding
    ensures same { one ≡ other → result ≡ Finding.Free }
    ensures apart { one ≢ other → result ≡ Finding.Unexplained }
{
    if one == other {
        Finding::Free
    } else {
        Finding::Unexplained
    }
}

// What a triple with rdfs:domain says.
fn domain_finding(subject: &Role, numbers: Numbered) -> Finding
    ensures { (base : List ℕ) (g : GraphValue) (w : TheWords) (rs : List TheRole) (G : List Statement) (x : Statement) → IsTripleOf base g w rs G x numbers → IsRole base g G x.subject subject.now → x.predicate ≡ word_iri RdfsDomain → Finds base g G x result }
{
    match subject {
        Role::Column(column) => free_where_same(numbers.object, column.class),
        Role::Link(link) => free_where_same(numbers.object, link.from),
        Role::Class(_) => Finding::Unexplained,
        Role::Nothing => Finding::Unexplained,
    }
}

// What a triple with rdfs:range says.
fn range_finding(subject: &Role) -> Finding
    ensures { (base : List ℕ) (g : GraphValue) (w : TheWords) (rs : List TheRole) (G : List Statement) (x : Statement) (n : TheNumbers) → IsTripleOf base g w rs G x n → IsRole base g G x.subject subject.now → x.predicate ≡ word_iri RdfsRange → Finds base g G x result }
{
    match subject {
        Role::Column(_) => Finding::Free,
        Role::Link(_) => Finding::Free,
        Role::Class(_) => Finding::Unexplained,
        Role::Nothing => Finding::Unexplained,
    }
}

// What a triple with owl:differentFrom says.
fn mark_finding(numbers: Numbered) -> Finding
    ensures { (base : List ℕ) (g : GraphValue) (w : TheWords) (rs : List TheRole) (G : List Statement) (x : Statement) → IsTripleOf base g w rs G x numbers → x.predicate ≡ word_iri OwlDifferentFrom → Finds base g G x result }
{
    if numbers.subject == numbers.object {
        Finding::Mark
    } else {
        Finding::Unexplained
    }
}

// What a triple says whose predicate is a column.
fn value_finding(
    alloc: Global,
    graph: &Graph,
    words: &Words,
    column: &ColumnRole,
    numbers: Numbered,
    object: &Term,
) -> Result<Finding, AllocError>
    ensures { IfOk result (λ finding. (base : List ℕ) (rs : List TheRole) (G : List Statement) (x : Statement) → IsTripleOf base graph.now words.now rs G x numbers → x.object ≡ object.now → IsColumnRole base graph.now G (term.Iri x.predicate) column.now
        → Finds base graph.now G x finding) }
{
    if !has(graph, numbers.subject, words.rdf_type, column.class) {
        return Ok(Finding::Unexplained);
    }
    let canonical = is_canonical(alloc, column.kind, object)?;
    if canonical {
        Ok(Finding::Value)
    } else {
        Ok(Finding::Unexplained)
    }
}

// An explained pair of a reference or a relation.
fn explained_pair(link: &LinkRole) -> Finding
    ensures reference { (r : RefName) → link.now.name ≡ Reference r → result ≡ Finding.Free }
    ensures relation { (q : RelName) → link.now.name ≡ Relation q → result ≡ Finding.Pair link.now.left link.now.right }
{
    match &link.name {
        LinkName::Reference(_) => Finding::Free,
        LinkName::Relation(_) => Finding::Pair {
            left: link.left,
            right: link.right,
        },
    }
}

// Whether the term is a literal.
fn is_literal(term: &Term) -> bool
    ensures { result ≡ is_literal term.now }
{
    match term {
        Term::Literal(_) => true,
        Term::Iri(_) => false,
        Term::Blank(_) => false,
    }
}

// What a triple says whose predicate is a reference or a relation.
fn pair_finding(
    graph: &Graph,
    words: &Words,
    link: &LinkRole,
    numbers: Numbered,
    object: &Term,
) -> Finding
    ensures { (base : List ℕ) (rs : List TheRole) (G : List Statement) (x : Statement) → IsTripleOf base graph.now words.now rs G x numbers → x.object ≡ object.now → IsLinkRole base graph.now G (term.Iri x.predicate) link.now
        → Finds base graph.now G x result }
{
    if is_literal(object) {
        return Finding::Unexplained;
    }
    if !has(graph, numbers.subject, words.rdf_type, link.from) {
        return Finding::Unexplained;
    }
    if !has(graph, numbers.object, words.rdf_type, link.to) {
        return Finding::Unexplained;
    }
    explained_pair(link)
}

// What a triple says whose predicate is none of the words.
fn property_finding(
    alloc: Global,
    graph: &Graph,
    words: &Words,
    predicate: &Role,
    numbers: Numbered,
    object: &Term,
) -> Result<Finding, AllocError>
    ensures { IfOk result (λ finding. (base : List ℕ) (rs : List TheRole) (G : List Statement) (x : Statement) → IsTripleOf base graph.now words.now rs G x numbers → x.object ≡ object.now → IsRole base graph.now G (term.Iri x.predicate) predicate.now
        → IsPlainProperty x → Finds base graph.now G x finding) }
{
    match predicate {
        Role::Column(column) => value_finding(alloc, graph, words, column, numbers, object),
        Role::Link(link) => Ok(pair_finding(graph, words, link, numbers, object)),
        Role::Class(_) => Ok(Finding::Unexplained),
        Role::Nothing => Ok(Finding::Unexplained),
    }
}

// What a triple says whose predicate is none of the words, by the roles of its terms.
fn plain_finding(
    alloc: Global,
    graph: &Graph,
    words: &Words,
    roles: &[Role],
    numbers: Numbered,
    object: &Term,
) -> Result<Finding, AllocError>
    ensures { IfOk result (λ finding. (base : List ℕ) (G : List Statement) (x : Statement) → IsTripleOf base graph.now words.now roles.now G x numbers → x.object ≡ object.now → IsPlainProperty x → Finds base graph.now G x finding) }
{
    match role_numbered(roles, numbers.predicate) {
        Some(predicate) => property_finding(alloc, graph, words, predicate, numbers, object),
        None => Ok(Finding::Unexplained),
    }
}

/// What the triple of these numbers and this object says. Refused for want of memory alone.
pub fn finding_of(
    alloc: Global,
    graph: &Graph,
    words: &Words,
    roles: &[Role],
    columned: &Columned,
    numbers: Numbered,
    object: &Term,
) -> Result<Finding, AllocError>
    ensures { IfOk result (λ finding. (base : List ℕ) (G : List Statement) (x : Statement) → IsTripleOf base graph.now words.now roles.now G x numbers → AreColumned roles.now columned.now → x.object ≡ object.now → Finds base graph.now G x finding) }
{
    let Some(subject) = role_numbered(roles, numbers.subject) else {
        return Ok(Finding::Unexplained);
    };
    if numbers.predicate == words.rdf_type {
        return Ok(type_finding(words, roles, columned, subject, numbers));
    }
    if numbers.predicate == words.domain {
        return Ok(domain_finding(subject, numbers));
    }
    if numbers.predicate == words.range {
        return Ok(range_finding(subject));
    }
    if numbers.predicate == words.different_from {
        return Ok(mark_finding(numbers));
    }
    plain_finding(alloc, graph, words, roles, numbers, object)
}
