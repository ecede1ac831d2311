ghost use Rattle.std.specs.Prelude.{◌≡◌, [], ◌∷◌, IfOk, IsTrue, nat_lt};
ghost use Rattle.std.specs.List.{list_all};
ghost use Rattle.bench_dm.specs.Tables.{column, dept, drafts, id, member, note, onto_id, person};

use crate::cells::name;
use schema_dm::{Column, Columns, Drafts, ForeignDraft, ForeignDrafts, NameLists, TableDraft};
use std::alloc::{AllocError, Global};
use value_dm::{Kind, Names};

fn column(alloc: Global, letters: &str, kind: Kind) -> Result<Column, AllocError>
    requires { IsTrue (list_all (λ letter. nat_lt letter 128) letters.now) }
    ensures { IfOk result (λ made. made ≡ column kind letters.now) }
{
    Ok(Column {
        name: name(alloc, letters)?,
        kind,
        not_null: false,
    })
}

fn one_name(alloc: Global, letters: &str) -> Result<Names, AllocError>
    requires { IsTrue (list_all (λ letter. nat_lt letter 128) letters.now) }
    ensures { IfOk result (λ names. names ≡ letters.now ∷ []) }
{
    let mut names = Names::new(alloc);
    names.push(name(alloc, letters)?)?;
    Ok(names)
}

fn one_list(alloc: Global, names: Names) -> Result<NameLists, AllocError>
    ensures { IfOk result (λ lists. lists ≡ names ∷ []) }
{
    let mut lists = NameLists::new(alloc);
    lists.push(names)?;
    Ok(lists)
}

// REFERENCES the table's column id.
fn onto_id(alloc: Global, letters: &str, target: &str) -> Result<ForeignDraft, AllocError>
    requires letters { IsTrue (list_all (λ letter. nat_lt letter 128) letters.now) }
    requires target { IsTrue (list_all (λ letter. nat_lt letter 128) target.now) }
    ensures { IfOk result (λ key. key ≡ onto_id letters.now target.now) }
{
    Ok(ForeignDraft {
        columns: one_name(alloc, letters)?,
        target: name(alloc, target)?,
        target_columns: Some(one_name(alloc, "id")?),
    })
}

fn dept(alloc: Global) -> Result<TableDraft, AllocError>
    ensures { IfOk result (λ draft. draft ≡ dept) }
{
    let mut columns = Columns::new(alloc);
    columns.push(column(alloc, "id", Kind::Integer)?)?;
    columns.push(column(alloc, "name", Kind::Text)?)?;
    Ok(TableDraft {
        name: name(alloc, "Dept")?,
        columns,
        primaries: one_list(alloc, one_name(alloc, "id")?)?,
        uniques: NameLists::new(alloc),
        foreign: ForeignDrafts::new(alloc),
    })
}

fn person(alloc: Global) -> Result<TableDraft, AllocError>
    ensures { IfOk result (λ draft. draft ≡ person) }
{
    let mut columns = Columns::new(alloc);
    columns.push(column(alloc, "id", Kind::Integer)?)?;
    columns.push(column(alloc, "name", Kind::Text)?)?;
    columns.push(column(alloc, "dept", Kind::Integer)?)?;
    columns.push(column(alloc, "boss", Kind::Integer)?)?;
    let mut foreign = ForeignDrafts::new(alloc);
    foreign.push(onto_id(alloc, "dept", "Dept")?)?;
    foreign.push(onto_id(alloc, "boss", "Person")?)?;
    Ok(TableDraft {
        name: name(alloc, "Person")?,
        columns,
        primaries: one_list(alloc, one_name(alloc, "id")?)?,
        uniques: NameLists::new(alloc),
        foreign,
    })
}

fn member(alloc: Global) -> Result<TableDraft, AllocError>
    ensures { IfOk result (λ draft. draft ≡ member) }
{
    let mut columns = Columns::new(alloc);
    columns.push(column(alloc, "person", Kind::Integer)?)?;
    columns.push(column(alloc, "dept", Kind::Integer)?)?;
    let mut key = one_name(alloc, "person")?;
    key.push(name(alloc, "dept")?)?;
    let mut foreign = ForeignDrafts::new(alloc);
    foreign.push(onto_id(alloc, "person", "Person")?)?;
    foreign.push(onto_id(alloc, "dept", "Dept")?)?;
    Ok(TableDraft {
        name: name(alloc, "Member")?,
        columns,
        primaries: one_list(alloc, key)?,
        uniques: NameLists::new(alloc),
        foreign,
    })
}

fn note(alloc: Global) -> Result<TableDraft, AllocError>
    ensures { IfOk result (λ draft. draft ≡ note) }
{
    let mut columns = Columns::new(alloc);
    columns.push(column(alloc, "text", Kind::Text)?)?;
    columns.push(column(alloc, "size", Kind::Integer)?)?;
    Ok(TableDraft {
        name: name(alloc, "Note")?,
        columns,
        primaries: NameLists::new(alloc),
        uniques: NameLists::new(alloc),
        foreign: ForeignDrafts::new(alloc),
    })
}

/// The drafts of the four tables. Refused for want of memory alone.
pub fn drafts(alloc: Global) -> Result<Drafts, AllocError>
    ensures { IfOk result (λ made. made ≡ drafts) }
{
    let mut drafts = Drafts::new(alloc);
    drafts.push(dept(alloc)?)?;
    drafts.push(person(alloc)?)?;
    drafts.push(member(alloc)?)?;
    drafts.push(note(alloc)?)?;
    Ok(drafts)
}
