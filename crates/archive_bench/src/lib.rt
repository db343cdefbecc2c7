//! Reads and writes of archived values in loops, for the benchmarks to time.
#![tactic(auto)]

mod access;
mod btree;
mod forms;
mod hash;
mod scans;
mod values;
mod whole;
