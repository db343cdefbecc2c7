//! Tests of writers and of the messages of errors.
mod refusals;
mod writers;
