//! Tests of archived search trees: which ones are refused, and what is read of those that are accepted.
#![tactic(auto)]

#[cfg(test)]
mod answers;
#[cfg(test)]
mod archives;
#[cfg(test)]
mod checking;
#[cfg(test)]
mod comparing;
#[cfg(test)]
mod composed;
#[cfg(test)]
mod cursors;
#[cfg(test)]
mod keys;
#[cfg(test)]
mod printing;
#[cfg(test)]
mod ranges;
#[cfg(test)]
mod read_back;
#[cfg(test)]
mod reading;
#[cfg(test)]
mod sealing;
#[cfg(test)]
mod sets;
#[cfg(test)]
mod shared;
#[cfg(test)]
mod sizes;
#[cfg(test)]
mod writing;
