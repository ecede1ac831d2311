ghost use Rattle.std.specs.Prelude.{◌≡◌};
ghost use Rattle.cmd_dm.specs.Ending.{Ends, result_status, to_output};
ghost use Rattle.cmd_dm.specs.Show.{show_script};

use crate::graphs::end_of_puts;
use crate::status::Status;
use crate::steps::load_graph;
use lines_dm::write_triples;
use outside_dm::{Shelf, Sink};
use std::alloc::Global;
use value_dm::Text;

/// `show GRAPH`: writes each triple of the file in its written form, in their order.
pub(crate) fn run_show<S: Shelf, K: Sink>(
    alloc: Global,
    graph: &Text,
    shelf: &mut S,
    out: &mut K,
) -> Result<(), Status>
    ensures { Ends to_output (show_script graph.now) (S.state shelf.old) (S.state shelf.new) (K.state out.old) (K.state out.new) (result_status result) }
{
    let triples = load_graph(alloc, graph, shelf)?;
    end_of_puts(write_triples(alloc, triples.as_slice(), out))
}
