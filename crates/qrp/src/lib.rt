//! Traces of Q-resolution proofs (QRP): reading them from bytes, and writing their canonical text.
//!
//! - Owns: texts of traces.
//! - Offers: `TraceReader`, `read_trace`, `read_flat`, `read_compact`; `write_trace`,
//!   `write_steps_at`, `write_framed`, `write_framed_at`.
//! - Proved: exactly the trace that the bytes spell, or exactly the first fault and its line, whole
//!   and item by item; the canonical text.
//! - Read first: `TraceReader::next_item`, `read_trace`, `write_trace`, `write_steps_at`,
//!   `trace_laws`, `item_laws`.
//! - Tested only: the crate `trace_tests`: worked texts, their canonical texts, each fault with its
//!   line, sources and sinks that fail.
//! - Trusted: nothing.
//! - On the map: read_trace, write_trace | the trace, or its first fault, P1 to P9.
#![tactic(auto)]

mod buffered_numbers;
mod fault;
mod items;
mod laws;
mod reader;
mod reading;
mod states;
mod tokens;
mod whole_trace;
mod writing;

pub use fault::TraceFault;
pub use laws::{item_laws, trace_laws};
pub use reader::TraceReader;
pub use reading::{read_compact, read_trace, read_trace as read_flat};
pub use writing::{Frame, write_framed, write_framed_at, write_steps_at, write_trace};
