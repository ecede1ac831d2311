// The drafts of tables that statements declare.
ghost use Rattle.std.specs.Prelude.{◌≡◌, ◌++◌, ◌<◌, [], ◌∷◌, IfOk, List, OnOk, length, map, slice_index_or, slice_set};
ghost use Rattle.std.specs.List.{flat_map, list_any};
ghost use Rattle.ddl_dm.specs.Meaning.{kind_of, is_not_null, column_of, item_columns, constraint_keys, item_keys, foreign_draft, draft_with, drafts_of, alters_unknown, unknown_alter};
ghost use Rattle.ddl_dm.specs.Building.{altered, created_name, created_names, extended, own_draft, own_drafts};
ghost use Rattle.schema_dm.specs.declared.draft.TableDraft.{TableDraft as Draft};
ghost use Rattle.ddl_syntax_dm.specs.declared.syntax.Statement.{Statement as TheStatement};

use ddl_syntax_dm::{Column, ColumnType, Constraint, CreateTable, Item, Key, Statement, Target};
use schema_dm::{Columns, Drafts, ForeignDraft, ForeignDrafts, Index, NameLists, TableDraft};
use std::alloc::{AllocError, Global};
use value_dm::{Kind, Names, Text, TryCopy};

fn kind_of(kind: ColumnType) -> Kind
    ensures { result ≡ kind_of kind }
{
    match kind {
        ColumnType::Text => Kind::Text,
        ColumnType::Integer => Kind::Integer,
        ColumnType::Decimal => Kind::Decimal,
        ColumnType::Boolean => Kind::Boolean,
        ColumnType::Date => Kind::Date,
        ColumnType::Time => Kind::Time,
        ColumnType::DateTime => Kind::DateTime,
        ColumnType::Binary => Kind::Binary,
    }
}

fn is_not_null(constraint: &Constraint) -> bool
    ensures { result ≡ is_not_null constraint.now }
{
    match constraint {
        Constraint::NotNull => true,
        _ => false,
    }
}

fn has_not_null(constraints: &[Constraint]) -> bool
    ensures { result ≡ list_any is_not_null constraints.now }
{
    constraints.iter().any(|constraint| is_not_null(constraint))
}

fn alone(alloc: Global, name: &Text) -> Result<Names, AllocError>
    ensures { IfOk result (λ names. names ≡ name.now ∷ []) }
{
    let mut names = Names::new(alloc);
    names.push(name.copy(alloc)?)?;
    Ok(names)
}

fn foreign_draft(alloc: Global, columns: Names, target: &Target) -> Result<ForeignDraft, AllocError>
    ensures { IfOk result (λ draft. draft ≡ foreign_draft columns target.now) }
{
    Ok(ForeignDraft {
        columns,
        target: target.table.copy(alloc)?,
        target_columns: target.columns.copy(alloc)?,
    })
}

fn add_primary(draft: &mut TableDraft, names: Names) -> Result<(), AllocError>
    ensures { OnOk result (draft.new ≡ extended draft.old [] (Key.Primary names ∷ [])) }
{
    draft.primaries.push(names)?;
    Ok(())
}

fn add_unique(draft: &mut TableDraft, names: Names) -> Result<(), AllocError>
    ensures { OnOk result (draft.new ≡ extended draft.old [] (Key.Unique names ∷ [])) }
{
    draft.uniques.push(names)?;
    Ok(())
}

fn add_foreign(
    alloc: Global,
    draft: &mut TableDraft,
    columns: Names,
    target: &Target,
) -> Result<(), AllocError>
    ensures { OnOk result (draft.new ≡ extended draft.old [] (Key.Foreign (record { columns = columns; target = target.now }) ∷ [])) }
{
    draft.foreign.push(foreign_draft(alloc, columns, target)?)?;
    Ok(())
}

fn add_key(alloc: Global, draft: &mut TableDraft, key: &Key) -> Result<(), AllocError>
    ensures { OnOk result (draft.new ≡ extended draft.old [] (key.now ∷ [])) }
{
    match key {
        Key::Primary(names) => add_primary(draft, names.copy(alloc)?),
        Key::Unique(names) => add_unique(draft, names.copy(alloc)?),
        Key::Foreign(key) => add_foreign(alloc, draft, key.columns.copy(alloc)?, &key.target),
    }
}

#[tactic(auto, using(crate::proofs::Growth::extended_by_nothing))]
fn add_constraint(
    alloc: Global,
    draft: &mut TableDraft,
    name: &Text,
    constraint: &Constraint,
) -> Result<(), AllocError>
    ensures { OnOk result (draft.new ≡ extended draft.old [] (constraint_keys name.now constraint.now)) }
{
    match constraint {
        Constraint::PrimaryKey => add_primary(draft, alone(alloc, name)?),
        Constraint::Unique => add_unique(draft, alone(alloc, name)?),
        Constraint::References(target) => add_foreign(alloc, draft, alone(alloc, name)?, target),
        Constraint::NotNull => Ok(()),
        Constraint::Null => Ok(()),
    }
}

fn add_constraints(
    alloc: Global,
    draft: &mut TableDraft,
    name: &Text,
    constraints: &[Constraint],
) -> Result<(), AllocError>
    ensures { OnOk result (draft.new ≡ extended draft.old [] (flat_map (constraint_keys name.now) constraints.now)) }
{
    for constraint in constraints {
        add_constraint(alloc, draft, name, constraint)?;
    }
    Ok(())
}

fn push_column(alloc: Global, draft: &mut TableDraft, column: &Column) -> Result<(), AllocError>
    ensures { OnOk result (draft.new ≡ extended draft.old (column_of column.now ∷ []) []) }
{
    let made = schema_dm::Column {
        name: column.name.copy(alloc)?,
        kind: kind_of(column.kind),
        not_null: has_not_null(column.constraints.as_slice()),
    };
    draft.columns.push(made)?;
    Ok(())
}

fn add_column(alloc: Global, draft: &mut TableDraft, column: &Column) -> Result<(), AllocError>
    ensures { OnOk result (draft.new ≡ extended draft.old (column_of column.now ∷ []) (flat_map (constraint_keys column.now.name) column.now.constraints)) }
{
    push_column(alloc, draft, column)?;
    add_constraints(alloc, draft, &column.name, column.constraints.as_slice())?;
    Ok(())
}

fn add_item(alloc: Global, draft: &mut TableDraft, item: &Item) -> Result<(), AllocError>
    ensures { OnOk result (draft.new ≡ extended draft.old (item_columns item.now) (item_keys item.now)) }
{
    match item {
        Item::Key(key) => add_key(alloc, draft, key),
        Item::Column(column) => add_column(alloc, draft, column),
    }
}

fn add_items(alloc: Global, draft: &mut TableDraft, items: &[Item]) -> Result<(), AllocError>
    ensures { OnOk result (draft.new ≡ extended draft.old (flat_map item_columns items.now) (flat_map item_keys items.now)) }
{
    for item in items {
        add_item(alloc, draft, item)?;
    }
    Ok(())
}

fn empty_draft(alloc: Global, name: &Text) -> Result<TableDraft, AllocError>
    ensures { IfOk result (λ draft. draft ≡ draft_with name.now [] []) }
{
    Ok(TableDraft {
        name: name.copy(alloc)?,
        columns: Columns::new(alloc),
        primaries: NameLists::new(alloc),
        uniques: NameLists::new(alloc),
        foreign: ForeignDrafts::new(alloc),
    })
}

fn own_draft(alloc: Global, table: &CreateTable) -> Result<TableDraft, AllocError>
    ensures { IfOk result (λ draft. draft ≡ own_draft table.now) }
{
    let mut draft = empty_draft(alloc, &table.name)?;
    add_items(alloc, &mut draft, table.items.as_slice())?;
    Ok(draft)
}

fn add_own(
    alloc: Global,
    drafts: &mut Vec<TableDraft>,
    statement: &Statement,
) -> Result<(), AllocError>
    ensures { OnOk result (drafts.new.items ≡ drafts.old.items ++ own_drafts statement.now) }
{
    match statement {
        Statement::Create(table) => {
            drafts.push(own_draft(alloc, table)?)?;
            Ok(())
        }
        Statement::Alter(_) => Ok(()),
    }
}

// A draft for each CREATE TABLE, without the keys of ALTERs.
fn own_drafts(alloc: Global, statements: &[Statement]) -> Result<Vec<TableDraft>, AllocError>
    ensures { IfOk result (λ drafts. drafts.items ≡ flat_map own_drafts statements.now) }
{
    let mut drafts = Vec::new(alloc);
    for statement in statements {
        add_own(alloc, &mut drafts, statement)?;
    }
    Ok(drafts)
}

fn add_key_at(
    alloc: Global,
    drafts: &mut Vec<TableDraft>,
    number: usize,
    key: &Key,
) -> Result<(), AllocError>
    requires { number < length drafts.old.items }
    ensures { (d : Draft) → OnOk result (drafts.new.items ≡ slice_set drafts.old.items number (extended (slice_index_or drafts.old.items number d) [] (key.now ∷ []))) }
{
    let draft = &mut drafts[number];
    add_key(alloc, draft, key)
}

// Adds the key of an ALTER to the first draft of its name.
fn add_altered(
    alloc: Global,
    created: &Index<Text>,
    drafts: &mut Vec<TableDraft>,
    statement: &Statement,
) -> Result<(), AllocError>
    requires { created.now ≡ map (λ draft. draft.name) drafts.old.items }
    ensures { OnOk result (drafts.new.items ≡ altered drafts.old.items statement.now) }
{
    match statement {
        Statement::Create(_) => Ok(()),
        Statement::Alter(alter) => match created.place(&alter.name) {
            None => Ok(()),
            Some(number) => add_key_at(alloc, drafts, number, &alter.key),
        },
    }
}

fn add_all_altered(
    alloc: Global,
    created: &Index<Text>,
    drafts: &mut Vec<TableDraft>,
    statements: &[Statement],
) -> Result<(), AllocError>
    requires created { created.now ≡ created_names statements.now }
    requires own { drafts.old.items ≡ flat_map own_drafts statements.now }
    ensures { OnOk result (drafts.new.items ≡ drafts_of statements.now) }
{
    for statement in statements {
        add_altered(alloc, created, drafts, statement)?;
    }
    Ok(())
}

/// A draft for each CREATE TABLE, in the order of the text, with the keys that ALTERs add behind its own; an
/// ALTER belongs to the first CREATE of its name. Refused for want of memory alone.
pub(crate) fn drafts_of(
    alloc: Global,
    created: &Index<Text>,
    statements: &[Statement],
) -> Result<Drafts, AllocError>
    requires { created.now ≡ created_names statements.now }
    ensures { IfOk result (λ drafts. drafts ≡ drafts_of statements.now) }
{
    let mut drafts = own_drafts(alloc, statements)?;
    add_all_altered(alloc, created, &mut drafts, statements)?;
    Ok(Drafts::from_vec(drafts))
}

fn push_created(
    alloc: Global,
    names: &mut Vec<Text>,
    statement: &Statement,
) -> Result<(), AllocError>
    ensures { OnOk result (names.new.items ≡ names.old.items ++ created_name statement.now) }
{
    match statement {
        Statement::Create(table) => {
            names.push(table.name.copy(alloc)?)?;
            Ok(())
        }
        Statement::Alter(_) => Ok(()),
    }
}

fn created_names(alloc: Global, statements: &[Statement]) -> Result<Vec<Text>, AllocError>
    ensures { IfOk result (λ names. names.items ≡ created_names statements.now) }
{
    let mut names = Vec::new(alloc);
    for statement in statements {
        push_created(alloc, &mut names, statement)?;
    }
    Ok(names)
}

/// The names of the CREATE TABLEs, in the order of the text. Refused for want of memory alone.
pub(crate) fn created(alloc: Global, statements: &[Statement]) -> Result<Index<Text>, AllocError>
    ensures { IfOk result (λ names. names ≡ created_names statements.now) }
{
    Index::new(alloc, created_names(alloc, statements)?)
}

fn alters_unknown(created: &Index<Text>, statement: &Statement) -> bool
    ensures { (statements : List TheStatement) → created.now ≡ created_names statements → result ≡ alters_unknown statements statement.now }
{
    match statement {
        Statement::Create(_) => false,
        Statement::Alter(table) => match created.place(&table.name) {
            None => true,
            Some(_) => false,
        },
    }
}

/// The place of the first ALTER of a table that no statement creates, counted from 0.
pub(crate) fn unknown_alter(created: &Index<Text>, statements: &[Statement]) -> Option<usize>
    requires { created.now ≡ created_names statements.now }
    ensures { result ≡ unknown_alter statements.now }
{
    statements
        .iter()
        .position(|statement| alters_unknown(created, statement))
}
