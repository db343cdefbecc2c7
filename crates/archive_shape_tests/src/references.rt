//! Tests of references, seals, places and what pointers lead to.

mod own_seals;
mod places;
mod pointees;
mod refs;
mod seals;
