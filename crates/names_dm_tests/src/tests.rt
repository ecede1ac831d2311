use names_dm::{
    Base, ColumnName, Iri, KeyPart, KeyParts, Label, Literal, LiteralType, RefName, RelName, Tag,
    Term, Triple, Triples, Var, Vars, row_label,
};
use std::alloc::Global;
use std::test::Fail;
use value_dm::{Names, Text, TryCopy, Value};

fn text(alloc: Global, letters: &str) -> Option<Text> {
    Text::from_str(alloc, letters).ok()
}

// Names with `,` between them.
fn names(alloc: Global, list: &str) -> Option<Names> {
    let mut names = Names::new(alloc);
    for name in list.split(',') {
        names.push(text(alloc, name)?).ok()?;
    }
    Some(names)
}

fn is_copied<T: TryCopy + PartialEq + Drop>(alloc: Global, value: Option<T>) -> bool {
    match value {
        Some(value) => match value.copy(alloc) {
            Ok(copy) => copy == value,
            Err(_) => false,
        },
        None => false,
    }
}

fn iri(alloc: Global, letters: &str) -> Option<Iri> {
    Iri::new(text(alloc, letters)?)
}

fn label(alloc: Global, letters: &str) -> Option<Label> {
    Label::new(text(alloc, letters)?)
}

fn tag(alloc: Global, letters: &str) -> Option<Tag> {
    Tag::new(text(alloc, letters)?)
}

fn is_word(alloc: Global, sort: char, word: &str) -> bool {
    match sort {
        'i' => iri(alloc, word).is_some(),
        'l' => label(alloc, word).is_some(),
        _ => tag(alloc, word).is_some(),
    }
}

// IRIs, labels and tags, and texts that are none.
const WORDS: [(char, &str, bool); 16] = [
    ('i', "", true),
    ('i', "a!\u{e9}\u{7f}", true),
    ('i', "a b", false),
    ('i', "a<", false),
    ('i', "a\\", false),
    ('i', "\0", false),
    ('l', "z.1", true),
    ('l', "a\u{b7}-:", true),
    ('l', "", false),
    ('l', "-a", false),
    ('l', "z.", false),
    ('t', "en-1-a9", true),
    ('t', "", false),
    ('t', "e1", false),
    ('t', "en-", false),
    ('t', "\u{e9}", false),
];

fn wrong_word(alloc: Global) -> Option<(char, &'static str)> {
    for (sort, word, is_one) in WORDS {
        if is_word(alloc, sort, word) != is_one {
            return Some((sort, word));
        }
    }
    None
}

#[test]
fn words_of_grammars(rt: HostRuntime) -> Result<(), Fail> {
    let wrong = wrong_word(rt.alloc());
    assert_eq!(rt; wrong, None);
    Ok(())
}

fn base(alloc: Global) -> Option<Base> {
    Base::new(text(alloc, "http://foo.example/DB/")?).ok()
}

fn vars(alloc: Global) -> Option<Vars> {
    let mut vars = Vars::new(alloc);
    vars.push(Var::new(text(alloc, "a_20b")?)?).ok()?;
    Some(vars)
}

fn key(alloc: Global) -> Option<KeyParts> {
    let mut key = KeyParts::new(alloc);
    let column = text(alloc, "a")?;
    let value = Value::Integer(18);
    key.push(KeyPart { column, value }).ok()?;
    Some(key)
}

fn column_name(alloc: Global) -> Option<ColumnName> {
    let table = text(alloc, "T")?;
    let column = text(alloc, "a")?;
    Some(ColumnName { table, column })
}

fn ref_name(alloc: Global) -> Option<RefName> {
    let table = text(alloc, "T")?;
    let columns = names(alloc, "a,b")?;
    Some(RefName { table, columns })
}

fn rel_name(alloc: Global) -> Option<RelName> {
    let table = text(alloc, "T")?;
    let left = text(alloc, "a")?;
    let left_target = text(alloc, "b")?;
    let right = text(alloc, "c")?;
    let right_target = text(alloc, "d")?;
    Some(RelName {
        table,
        left,
        left_target,
        right,
        right_target,
    })
}

fn literal_type(alloc: Global, sort: char) -> Option<LiteralType> {
    match sort {
        'p' => Some(LiteralType::Plain),
        'd' => Some(LiteralType::Typed(iri(alloc, "http://a/d")?)),
        _ => Some(LiteralType::Tagged(tag(alloc, "en-GB")?)),
    }
}

fn term(alloc: Global, sort: char) -> Option<Term> {
    match sort {
        'i' => Some(Term::Iri(iri(alloc, "http://a/\u{e9}")?)),
        'b' => Some(Term::Blank(label(alloc, "z.1")?)),
        _ => {
            let kind = literal_type(alloc, sort)?;
            Some(Term::Literal(Literal::new(text(alloc, "x")?, kind)))
        }
    }
}

fn triple(alloc: Global, object: Term) -> Option<Triple> {
    let predicate = iri(alloc, "http://a/p")?;
    let subject = Term::Blank(row_label(alloc, 1, 20).ok()?);
    Triple::new(subject, predicate, object)
}

// A graph of one triple, with an object of this sort.
fn triples(alloc: Global, sort: char) -> Option<Triples> {
    let mut triples = Triples::new(alloc);
    triples.push(triple(alloc, term(alloc, sort)?)?).ok()?;
    Some(triples)
}

fn is_name_copied(alloc: Global, sort: char) -> bool {
    match sort {
        'B' => is_copied(alloc, base(alloc)),
        'V' => is_copied(alloc, vars(alloc)),
        'K' => is_copied(alloc, key(alloc)),
        'C' => is_copied(alloc, column_name(alloc)),
        'F' => is_copied(alloc, ref_name(alloc)),
        'L' => is_copied(alloc, rel_name(alloc)),
        _ => is_copied(alloc, triples(alloc, sort)),
    }
}

fn wrong_copy(alloc: Global) -> Option<char> {
    for sort in "BVKCFLibpdt".chars() {
        if !is_name_copied(alloc, sort) {
            return Some(sort);
        }
    }
    None
}

// A triple's copy copies its terms, a literal's its type.
#[test]
fn copies_of_names(rt: HostRuntime) -> Result<(), Fail> {
    let wrong = wrong_copy(rt.alloc());
    assert_eq!(rt; wrong, None);
    Ok(())
}
