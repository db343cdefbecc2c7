//! Values of archived B-tree maps that may be edited: single ones, those of a visit, and those that cursors lend.

mod iter;
mod range;
mod single;
mod visit;
