//! Archived options, results, boxes, vectors and arrays, and the native values of leaves.

mod array;
mod boxed;
mod iter;
mod leaf;
mod option;
mod resolving;
mod result;
mod slice;
mod target;
mod vector;

pub use array::{array_element, array_element_seal, array_slice};
pub use boxed::ArchivedBox;
pub use iter::Iter;
pub use leaf::native_of;
pub use option::{ArchivedOption, SOME_TAG};
pub use resolving::{BoxResolver, VecResolver};
pub use result::ArchivedResult;
pub use slice::{SliceRef, SliceSeal};
pub use target::target_of;
pub use vector::ArchivedVec;
