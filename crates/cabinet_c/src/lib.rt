//! The calls of `cabinet` for C: archives, texts and lines are bytes of the caller, and each call returns a status code.
#![tactic(auto)]

mod exports;
