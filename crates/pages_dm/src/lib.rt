//! Pages: texts that are gathered in memory and put to a sink when they fill a page.
#![tactic(auto)]

mod pages;

pub use pages::{put_if_full, put_rest};
