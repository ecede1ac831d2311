ghost use Rattle.std.specs.Prelude.{[]};
ghost use Rattle.outside_dm.specs.Putting.{Writes};
ghost use Rattle.pages_dm.specs.Streams.{Streams};

use outside_dm::{PutError, Sink};

// A page that holds so many bytes is put.
const FULL_PAGE: usize = 65_536;

/// Puts the page and empties it where it holds at least 65,536 bytes; a shorter page stays as it is. A refusal is the sink's.
pub fn put_if_full<K: Sink>(page: &mut Vec<u8>, out: &mut K) -> Result<(), PutError>
    ensures { Streams [] (K.state out.old) page.old.items (K.state out.new) page.new.items result }
{
    if page.len() >= FULL_PAGE {
        out.put(page.as_slice())?;
        page.clear();
    }
    Ok(())
}

/// Puts what is left on a page, and makes no call where that is nothing. A refusal is the sink's.
pub fn put_rest<K: Sink>(page: &[u8], out: &mut K) -> Result<(), PutError>
    ensures { Writes page.now (K.state out.old) (K.state out.new) result }
{
    if page.is_empty() {
        return Ok(());
    }
    out.put(page)
}
