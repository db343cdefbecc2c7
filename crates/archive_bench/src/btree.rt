//! Archived search trees that are written, walked and searched, for the benchmark to time.

mod reads;
mod writes;
