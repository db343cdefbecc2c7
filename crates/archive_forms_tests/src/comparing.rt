//! Tests of how archived forms are compared, hashed and printed.
mod answers;
mod by_parts;
mod hashes;
mod leaves;
mod orders;
mod printing;
