//! Tests of the serializers, validators, access and reading back of archives, with a module for each area that is
//! tested.
#![tactic(auto)]

#[cfg(test)]
mod access;
#[cfg(test)]
mod archives;
#[cfg(test)]
mod rc;
#[cfg(test)]
mod serializing;
#[cfg(test)]
mod shared;
#[cfg(test)]
mod validation;
