//! The commands of `dbrdf`, from their words to what they write and to the line on how they ended.
#![tactic(auto)]

mod append;
mod ask;
mod bench;
mod causes;
mod check;
mod clean;
mod command;
mod consistent;
mod fault_line;
mod folder;
mod graphs;
mod invert;
mod query;
mod reasons;
mod rows;
mod show;
mod sparql;
mod status;
mod steps;
mod storing;
mod top;
mod words;

pub use command::Command;
pub use fault_line::fault_text;
pub use status::{File, Reason, Status};
pub use top::run;
pub use words::{WordError, read_words};
