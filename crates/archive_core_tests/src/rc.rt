//! Tests of counted and weak pointers: the errors of their checks, their own bytes, how they are compared and printed,
//! read once by a pool, and read back; and types whose values lead to values of the same type.

mod by_value;
mod counted;
mod cycles;
mod cyclic;
mod keys;
mod pooled;
mod read_back;
mod read_once;
mod resolved;
mod tower;
pub(crate) mod values;
mod weak;
