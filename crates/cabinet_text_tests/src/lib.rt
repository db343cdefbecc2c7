//! Tests of the crates of documents as text, of what cabinet_text_session cannot show.
#![tactic(auto)]

#[cfg(test)]
mod lines;
#[cfg(test)]
mod nodes;
#[cfg(test)]
mod reading;
#[cfg(test)]
mod wholes;
