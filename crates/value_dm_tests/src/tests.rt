use std::alloc::Global;
use std::test::Fail;
use value_dm::{
    Bytes, Cells, Kind, Names, NullMode, Sequence, Text, TryCopy, Value, field_text, read_field,
};

fn text(alloc: Global, letters: &str) -> Option<Text> {
    Text::from_str(alloc, letters).ok()
}

// Names with `,` between them.
fn names(alloc: Global, list: &str) -> Option<Names> {
    let mut names = Names::new(alloc);
    for name in list.split(',') {
        names.push(text(alloc, name)?).ok()?;
    }
    Some(names)
}

fn is_copied<T: TryCopy + PartialEq + Drop>(alloc: Global, value: Option<T>) -> bool {
    match value {
        Some(value) => match value.copy(alloc) {
            Ok(copy) => copy == value,
            Err(_) => false,
        },
        None => false,
    }
}

// A field of each kind, and NULL.
const FIELDS: [(Kind, &str); 9] = [
    (Kind::Text, "a\u{e9}"),
    (Kind::Integer, "-12"),
    (Kind::Decimal, "-10.01"),
    (Kind::Boolean, "true"),
    (Kind::Date, "2024-02-29"),
    (Kind::Time, "03:04:05.5"),
    (Kind::DateTime, "2024-01-02T03:04:05.1"),
    (Kind::Binary, "\\x00FF"),
    (Kind::Integer, "\\N"),
];

// Whether the copy of the cell that the field stands for is written as the field again.
fn is_kept(alloc: Global, kind: Kind, field: &str) -> Option<bool> {
    let cell = read_field(alloc, kind, field, NullMode::Plain).ok()?;
    let copy = cell.copy(alloc).ok()?;
    let written = field_text(alloc, &copy).ok()?;
    Some((copy == cell) & (written.as_str() == field))
}

fn wrong_field(alloc: Global) -> &'static str {
    for (kind, field) in FIELDS {
        if is_kept(alloc, kind, field) != Some(true) {
            return field;
        }
    }
    ""
}

fn row(alloc: Global) -> Option<Cells> {
    let mut cells: Cells = Sequence::new(alloc);
    cells.push(Some(Value::Boolean(true))).ok()?;
    cells.push(None).ok()?;
    Some(cells)
}

fn bytes(alloc: Global) -> Option<Bytes> {
    let mut bytes = Bytes::new(alloc);
    bytes.push(7).ok()?;
    bytes.push(255).ok()?;
    Some(bytes)
}

fn wrong_list(alloc: Global) -> &'static str {
    if !is_copied(alloc, row(alloc)) {
        return "a row";
    }
    if !is_copied(alloc, bytes(alloc)) {
        return "bytes";
    }
    if !is_copied(alloc, names(alloc, "a,\u{e9}")) {
        return "names";
    }
    if !(is_copied(alloc, Some(7u8))
        & is_copied(alloc, Some(8u32))
        & is_copied(alloc, Some(9u64)))
    {
        return "numbers";
    }
    ""
}

#[test]
fn copies_of_values(rt: HostRuntime) -> Result<(), Fail> {
    let wrong = wrong_field(rt.alloc());
    assert_eq!(rt; wrong, "");
    let wrong = wrong_list(rt.alloc());
    assert_eq!(rt; wrong, "");
    Ok(())
}
