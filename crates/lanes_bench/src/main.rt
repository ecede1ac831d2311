//! Times the kernels of `lanes_dm` beside plain loops; with no argument it prints sums over small inputs.
#![tactic(auto)]

mod plain;
mod sums;
mod times;

use std::process::ExitCode;
use std::{env, io};

fn run(rt: &HostRuntime) -> io::Result<ExitCode> {
    let Some(word) = env::args(rt)?.nth(1) else {
        sums::print_sums(rt)?;
        return Ok(ExitCode::SUCCESS);
    };
    let Ok(size) = word.as_str().parse::<usize>() else {
        eprintln!(rt; "usage: lanes_bench [BYTES]")?;
        return Ok(ExitCode::from(2));
    };
    times::print_times(rt, size)?;
    Ok(ExitCode::SUCCESS)
}

fn main(rt: HostRuntime) -> io::Result<ExitCode> {
    run(&rt)
}
