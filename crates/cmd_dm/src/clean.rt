ghost use Rattle.std.specs.Prelude.{◌≡◌, ◌<◌, ◌≤◌, All, IfOk, length, string_bytes};
ghost use Rattle.cmd_dm.specs.Clean.{clean_script, clean_text};
ghost use Rattle.cmd_dm.specs.Ending.{Ends, result_status, to_both};

use crate::check::{push_labelled, push_line};
use crate::status::Status;
use crate::steps::{LoadedFolder, read_folder};
use crate::storing::{folder_files, shapes_of, write_work};
use clean_dm::{Removal, clean, kept};
use keys_dm::Violation;
use outside_dm::{Shelf, Sink};
use schema_dm::Table;
use std::alloc::{AllocError, Global};
use value_dm::{NullMode, Text};

/// The text of `clean` for these removals.
#[tactic(auto, unfolding(crate::specs::Clean::clean_text))]
fn clean_text(alloc: Global, tables: &[Table], removals: &[Removal]) -> Result<String, AllocError>
    requires { All (λ removal. (0 < removal.table) × (removal.table ≤ length tables.now)) removals.now }
    ensures { IfOk result (λ text. string_bytes text ≡ clean_text tables.now removals.now) }
{
    let mut text = String::new(alloc);
    for removal in removals {
        let violation = Violation {
            table: removal.table,
            row: removal.row,
            kind: removal.kind,
        };
        push_line(alloc, &mut text, tables, &violation)?;
    }
    push_labelled(&mut text, "removed ", removals.len() as u64)?;
    text.push_str("\n")?;
    Ok(text)
}

/// `clean FOLDER OUT`: stores the largest part of the folder's database that keeps its keys, and then writes a line for each
/// row that was removed, and their count. All texts are made before the first file is stored.
pub(crate) fn run_clean<S: Shelf, K: Sink>(
    alloc: Global,
    folder: &Text,
    stored: &Text,
    nulls: NullMode,
    shelf: &mut S,
    out: &mut K,
) -> Result<(), Status>
    ensures { Ends to_both (clean_script folder.now stored.now nulls) (S.state shelf.old) (S.state shelf.new) (K.state out.old) (K.state out.new) (result_status result) }
{
    let LoadedFolder { schema, database } = read_folder(alloc, folder, nulls, shelf)?;
    let tables = database.schema().tables();
    let removals = clean(alloc, &database)?;
    let rows = kept(alloc, &database, &removals)?;
    let shapes = shapes_of(alloc, tables)?;
    let text = clean_text(alloc, tables, removals.as_slice())?;
    let files = folder_files(alloc, stored, schema, shapes.as_slice(), rows.as_slice())?;
    write_work(files.as_slice(), text.as_bytes(), shelf, out)
}
