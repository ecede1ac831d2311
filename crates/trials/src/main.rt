//! Runs the scripts of cases that its words name, and tells of each how many cases end as they tell, or the first that doesn't.
#![tactic(auto)]

use command_trials::{Verdict, verdict_of};
use std::process::ExitCode;
use std::{env, fs, io};

fn print_verdict(rt: &HostRuntime, name: &str, verdict: Option<Verdict>) -> io::Result<()> {
    match verdict {
        Some(Verdict::Held(count)) => println!(rt; "{name}: {count} cases"),
        Some(Verdict::Other(title, ending)) => {
            let ending = String::from_utf8_lossy(rt.alloc(), ending.as_slice())?;
            println!(rt; "{name}: {title}: {ending}")
        }
        None => println!(rt; "{name}: no memory, or two files of one name"),
    }
}

fn run_scripts(rt: &HostRuntime) -> io::Result<()> {
    for name in env::args(rt)?.skip(1) {
        let script = fs::read_to_string(rt, name.as_str())?;
        print_verdict(rt, name.as_str(), verdict_of(rt.alloc(), script.as_str()))?;
    }
    Ok(())
}

fn main(rt: HostRuntime) -> io::Result<()> {
    run_scripts(&rt)
}
