//! Archived forms that are checked, written and read, for the benchmark to time.

mod checks;
mod context;
mod reads;
mod serializer;
mod writes;
