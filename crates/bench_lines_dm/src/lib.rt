//! What `bench` tells of the benchmark's database: its rows, the triples of its map graph, whether the graph gives the
//! database back, and whether two queries are answered alike over the tables and over the graph.
#![tactic(auto)]

mod answers;
mod inverted;
mod lines;
mod queries;

pub use lines::bench_lines;
