//! Tests of serializers, writers, and what keeps shared values.
mod buffers;
mod pool;
mod serializers;
mod share;
mod writers;
