//! Tests of keys and of small types.
mod keys;
mod small;
