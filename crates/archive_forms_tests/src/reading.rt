//! Tests of the reading of forms that have parts.
mod boxed_slices;
mod boxes;
pub(crate) mod checked;
mod options;
mod resolving;
mod results;
mod tuples;
mod vectors;
