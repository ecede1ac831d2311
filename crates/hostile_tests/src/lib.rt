//! Tests of hostile use, through the top call: an output that fails at each put, a graph that is cut off at each byte, patterns with as
//! many open parts as may be, files of one byte more than a load takes, and many ranges of one property.
#![tactic(auto)]

#[cfg(test)]
mod deep;
#[cfg(test)]
mod tests;
