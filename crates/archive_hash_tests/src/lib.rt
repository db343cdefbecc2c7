//! Tests of archived hash tables: hashes and tags, the marks of scans, strides, the places that scans of every width
//! find, the errors of checking tables and index maps, index maps and sets, the bytes that are written, what is read
//! back, and values with several tables.
#![tactic(auto)]

#[cfg(test)]
mod checking;
#[cfg(test)]
mod index_answers;
#[cfg(test)]
mod index_lending;
#[cfg(test)]
mod index_maps;
#[cfg(test)]
mod index_owned;
#[cfg(test)]
mod index_reading;
#[cfg(test)]
mod index_writing;
#[cfg(test)]
mod indexing;
#[cfg(test)]
mod keys;
#[cfg(test)]
mod lending;
#[cfg(test)]
mod maps;
#[cfg(test)]
mod placing;
#[cfg(test)]
mod read_back;
#[cfg(test)]
mod reading;
#[cfg(test)]
mod scanning;
#[cfg(test)]
mod sealing;
#[cfg(test)]
mod several;
#[cfg(test)]
mod shared;
#[cfg(test)]
mod writing;
