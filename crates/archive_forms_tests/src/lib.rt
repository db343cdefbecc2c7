//! Tests of archived forms, with a module for each area that is tested.
#![tactic(auto)]

#[cfg(test)]
mod checking;
#[cfg(test)]
mod comparing;
#[cfg(test)]
mod narrow_context;
#[cfg(test)]
mod reading;
#[cfg(test)]
mod reading_back;
pub mod recursive;
#[cfg(test)]
mod text;
#[cfg(test)]
mod writing;
