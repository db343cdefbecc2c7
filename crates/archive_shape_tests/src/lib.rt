//! Tests of the crates `archive_shape` and `archive_shape_layout`.
#![tactic(auto)]

#[cfg(test)]
mod pointers;
#[cfg(test)]
mod portable;
#[cfg(test)]
mod references;
#[cfg(test)]
mod shape;
#[cfg(test)]
mod writing;
