ghost use Rattle.std.specs.Prelude.{◌≡◌, ◌≤◌};
ghost use Rattle.outside_dm.specs.Shelves.{ShelfState};
ghost use Rattle.cmd_dm.specs.Bench.{bench_script};
ghost use Rattle.cmd_dm.specs.Ending.{Ends, result_status, to_output};

use crate::graphs::end_of_puts;
use crate::status::Status;
use bench_lines_dm::bench_lines;
use outside_dm::Sink;
use std::alloc::Global;

/// `bench N`: writes what is counted of the benchmark's database. It loads nothing.
pub(crate) fn run_bench<K: Sink>(alloc: Global, n: u32, out: &mut K) -> Result<(), Status>
    requires { n ≤ 50000 }
    ensures { (state : ShelfState) → Ends to_output (bench_script n) state state (K.state out.old) (K.state out.new) (result_status result) }
{
    let text = bench_lines(alloc, n)?;
    end_of_puts(out.put(text.as_bytes()))
}
