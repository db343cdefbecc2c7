//! Tests of offsets, and of pointers that are stored as offsets.

mod offsets;
mod raw_pointers;
mod rel_pointers;
mod unsized_pointers;
