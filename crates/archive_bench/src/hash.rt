//! Archived hash maps that are written, walked and searched, for the benchmark to time.

mod reads;
mod writes;
