//! Tests of archived texts.
mod checked;
mod checks;
mod keys;
mod reading;
mod writing;
