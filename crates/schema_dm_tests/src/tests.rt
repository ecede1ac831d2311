use schema_dm::{
    Column, Columns, Drafts, ForeignDraft, ForeignDrafts, NameLists, Schema, SchemaCause,
    SchemaFault, Shape, ShapeTable, ShapeTables, TableDraft,
};
use std::alloc::Global;
use std::test::Fail;
use value_dm::{Kind, Names, Text, TryCopy};

fn text(alloc: Global, letters: &str) -> Option<Text> {
    Text::from_str(alloc, letters).ok()
}

// Names with `,` between them.
fn names(alloc: Global, list: &str) -> Option<Names> {
    let mut names = Names::new(alloc);
    for name in list.split(',') {
        names.push(text(alloc, name)?).ok()?;
    }
    Some(names)
}

fn is_copied<T: TryCopy + PartialEq + Drop>(alloc: Global, value: Option<T>) -> bool {
    match value {
        Some(value) => match value.copy(alloc) {
            Ok(copy) => copy == value,
            Err(_) => false,
        },
        None => false,
    }
}

// A column, and one with NOT NULL where `*` stands behind its name.
fn column(alloc: Global, word: &str) -> Option<Column> {
    let name = text(alloc, word.trim_end_matches('*'))?;
    Some(Column {
        name,
        kind: Kind::Integer,
        not_null: word.ends_with('*'),
    })
}

// The columns of a table that is written as its name and its columns, with spaces between.
fn columns(alloc: Global, words: &str) -> Option<Columns> {
    let mut columns = Columns::new(alloc);
    for word in words.split(' ').skip(1) {
        columns.push(column(alloc, word)?).ok()?;
    }
    Some(columns)
}

fn shape_table(alloc: Global, words: &str) -> Option<ShapeTable> {
    let name = text(alloc, words.split(' ').next()?)?;
    let columns = columns(alloc, words)?;
    Some(ShapeTable { name, columns })
}

// The shape of tables with `;` between.
fn shape(alloc: Global, tables: &str) -> Option<Shape> {
    let mut list = ShapeTables::new(alloc);
    for words in tables.split(';') {
        list.push(shape_table(alloc, words)?).ok()?;
    }
    Shape::new(list)
}

// The head, and behind it so many names, with this before each and that behind.
fn many(alloc: Global, head: &str, count: u32, before: &str, behind: &str) -> Option<String> {
    let mut text = String::from_str(alloc, head).ok()?;
    for number in 0..count {
        let name = format!(in alloc; "{before}t{number:04}{behind}").ok()?;
        text.push_str(name.as_str()).ok()?;
    }
    Some(text)
}

fn shape_len(alloc: Global, tables: &str) -> usize {
    match shape(alloc, tables) {
        Some(shape) => shape.len(),
        None => 0,
    }
}

// Tables, and how many the shape has, or 0 where they are none.
const SHAPES: [(&str, usize); 14] = [
    ("A x", 1),
    ("A x y;B x", 2),
    ("A z;\u{e9} x", 2),
    ("A \u{ff5e} \u{10000}", 1),
    ("A x;B", 0),
    ("B x;A x", 0),
    ("A x;A y", 0),
    ("A y x", 0),
    ("A x x", 0),
    ("A x*", 0),
    (" x", 0),
    ("\u{feff}A x", 0),
    ("A \u{feff}x", 0),
    ("A ", 0),
];

// The head, how many names, what stands before and behind each, and how many tables the shape has.
const LIMITS: [(&str, u32, &str, &str, usize); 4] = [
    ("A x", 4095, ";", " x", 4096),
    ("A x", 4096, ";", " x", 0),
    ("A x;B", 256, " ", "", 2),
    ("A x;B", 257, " ", "", 0),
];

fn is_limit(alloc: Global, limit: (&str, u32, &str, &str, usize)) -> bool {
    let (head, count, before, behind, len) = limit;
    match many(alloc, head, count, before, behind) {
        Some(tables) => shape_len(alloc, tables.as_str()) == len,
        None => false,
    }
}

fn wrong_shape(alloc: Global) -> &'static str {
    for (tables, len) in SHAPES {
        if shape_len(alloc, tables) != len {
            return tables;
        }
    }
    for limit in LIMITS {
        if !is_limit(alloc, limit) {
            return limit.0;
        }
    }
    "none"
}

#[test]
fn shapes(rt: HostRuntime) -> Result<(), Fail> {
    let wrong = wrong_shape(rt.alloc());
    assert_eq!(rt; wrong, "none");
    Ok(())
}

fn draft(alloc: Global, words: &str) -> Option<TableDraft> {
    let name = text(alloc, words.split(' ').next()?)?;
    let columns = columns(alloc, words)?;
    Some(TableDraft {
        name,
        columns,
        primaries: NameLists::new(alloc),
        uniques: NameLists::new(alloc),
        foreign: ForeignDrafts::new(alloc),
    })
}

// A foreign key of no column.
fn empty_foreign(alloc: Global) -> Option<ForeignDraft> {
    Some(ForeignDraft {
        columns: Names::new(alloc),
        target: text(alloc, "A")?,
        target_columns: None,
    })
}

// Adds a key of no column: a primary, a unique or a foreign one, or none.
fn add_empty_key(alloc: Global, draft: &mut TableDraft, key: char) -> Option<()> {
    match key {
        '!' => draft.primaries.push(Names::new(alloc)).ok(),
        '?' => draft.uniques.push(Names::new(alloc)).ok(),
        '>' => draft.foreign.push(empty_foreign(alloc)?).ok(),
        _ => Some(()),
    }
}

fn empty_keyed(alloc: Global, words: &str, key: char) -> Option<Drafts> {
    let mut draft = draft(alloc, words)?;
    add_empty_key(alloc, &mut draft, key)?;
    let mut drafts = Drafts::new(alloc);
    drafts.push(draft).ok()?;
    Some(drafts)
}

fn cause(alloc: Global, words: &str, key: char) -> Option<SchemaCause> {
    match Schema::new(alloc, empty_keyed(alloc, words, key)?) {
        Err(SchemaFault::Bad(error)) => Some(error.cause),
        _ => None,
    }
}

// A table and a key of no column, and why they are refused; no text of a schema has these.
const REFUSED: [(&str, char, SchemaCause); 7] = [
    (" x", ' ', SchemaCause::BadName),
    ("\u{feff}A x", ' ', SchemaCause::BadName),
    ("A x \u{feff}y", ' ', SchemaCause::BadName),
    ("A ", '!', SchemaCause::BadName),
    ("A x", '!', SchemaCause::NoColumn),
    ("A x", '?', SchemaCause::NoColumn),
    ("A x", '>', SchemaCause::NoColumn),
];

fn wrong_cause(alloc: Global) -> Option<(&'static str, char)> {
    for (words, key, expected) in REFUSED {
        if cause(alloc, words, key) != Some(expected) {
            return Some((words, key));
        }
    }
    None
}

#[test]
fn schemas_of_no_text(rt: HostRuntime) -> Result<(), Fail> {
    let wrong = wrong_cause(rt.alloc());
    assert_eq!(rt; wrong, None);
    Ok(())
}

fn foreign(alloc: Global, columns: &str, target_columns: Option<Names>) -> Option<ForeignDraft> {
    let columns = names(alloc, columns)?;
    let target = text(alloc, "A")?;
    Some(ForeignDraft {
        columns,
        target,
        target_columns,
    })
}

// Adds a primary and a unique key, and foreign ones with and without the columns of the target.
fn add_keys(alloc: Global, draft: &mut TableDraft) -> Option<()> {
    draft.primaries.push(names(alloc, "x")?).ok()?;
    draft.uniques.push(names(alloc, "y,x")?).ok()?;
    draft.foreign.push(foreign(alloc, "y", None)?).ok()?;
    let target_columns = Some(names(alloc, "x,y")?);
    draft
        .foreign
        .push(foreign(alloc, "x,y", target_columns)?)
        .ok()
}

fn drafts(alloc: Global) -> Option<Drafts> {
    let mut keyed = draft(alloc, "A x* y")?;
    add_keys(alloc, &mut keyed)?;
    let mut drafts = Drafts::new(alloc);
    drafts.push(keyed).ok()?;
    drafts.push(draft(alloc, "B z")?).ok()?;
    Some(drafts)
}

fn is_schema_copied(alloc: Global) -> Option<bool> {
    let schema = Schema::new(alloc, drafts(alloc)?).ok()?;
    let copy = schema.copy(alloc).ok()?;
    Some(copy.tables() == schema.tables())
}

fn is_shape_copied(alloc: Global) -> Option<bool> {
    let shape = shape(alloc, "A x y;B x")?;
    let copy = shape.copy(alloc).ok()?;
    Some(copy.as_slice() == shape.as_slice())
}

#[test]
fn copies_of_schemas(rt: HostRuntime) -> Result<(), Fail> {
    let copied = is_copied(rt.alloc(), drafts(rt.alloc()));
    assert!(rt; copied);
    assert_eq!(rt; is_schema_copied(rt.alloc()), Some(true));
    assert_eq!(rt; is_shape_copied(rt.alloc()), Some(true));
    Ok(())
}
