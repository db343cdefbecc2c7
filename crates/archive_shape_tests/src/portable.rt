//! Tests of archived numbers, chars and bools, and of the layouts of their types.
mod chars;
mod layouts;
mod numbers;
mod one_byte;
mod without_0;
