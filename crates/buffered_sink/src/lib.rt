//! A sink that holds bytes back before another sink.
//!
//! - Owns: bytes that are held back before a sink.
//! - Offers: `Buffered`.
//! - Proved: bytes that are put go to the other sink, whole and in order, and the bytes that are
//!   held back are known until `finish`.
//! - Read first: `Buffered`.
//! - Tested only: its own tests: thousands of bytes one by one and at once, a sink that fails.
//! - Trusted: nothing.
//! - On the map: the output is held back | and written whole.
#![tactic(auto)]

mod buffered;
mod spaced;

pub use buffered::Buffered;
