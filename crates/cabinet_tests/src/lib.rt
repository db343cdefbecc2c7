//! Tests of the cabinet on examples: what the contracts of saving, opening, sessions, faults and calls leave open.
#![tactic(auto)]

#[cfg(test)]
mod archives;
#[cfg(test)]
mod calls;
#[cfg(test)]
mod carrying;
#[cfg(test)]
mod growing;
#[cfg(test)]
mod laws;
#[cfg(test)]
mod loading;
#[cfg(test)]
mod locating;
#[cfg(test)]
mod opening;
#[cfg(test)]
mod printing;
#[cfg(test)]
mod saving;
#[cfg(test)]
mod spoilt;
#[cfg(test)]
mod wholes;
