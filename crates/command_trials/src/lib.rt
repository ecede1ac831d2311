//! What the tests of the commands share: scripts of cases, which tell files and commands as text, runs over devices in memory of which
//! a call fails, and whether a run ends as a case tells.
#![tactic(auto)]

mod cases;
mod files;
mod runs;
mod scripts;
mod texts;

pub use cases::{Case, case_of, ends_otherwise};
pub use files::{add_file, add_files, files_of, has_files};
pub use runs::{
    Ended, Fault, fault_of, output_of, run_on, run_over, run_without_faults, shelf_of, words_of,
};
pub use scripts::{Verdict, verdict_of};
pub use texts::bytes_of;
