//! Checks of archived forms with parts, each by a step for its parts.
//!
//! A step is a closure that checks one part at a position. Its contract is defined in archive_shape's specs/Steps.

mod boxed;
mod offsets;
mod option;
mod result;
mod tuple;
mod tuple3;
mod tuple4;
mod vector;

pub use archive_shape::{check_array_each, check_slice_each};
pub use boxed::{check_behind_each, check_box_each};
pub use offsets::{field_end, greater, next_multiple};
pub use option::check_option_each;
pub use result::check_result_each;
pub use tuple::{check_tuple1_each, check_tuple2_each};
pub use tuple3::check_tuple3_each;
pub use tuple4::check_tuple4_each;
pub use vector::{check_elements_behind, check_vec_each};
