//! The lines that say turns, written to an output through a buffer.
//!
//! A `LineBuffer` is taken once, and then a line takes no memory, of whatever length it is: what is put into the buffer is
//! written in pieces of at most `PIECE_BYTES`, and the text of a JSON tree is put there byte by byte. Where a write fails,
//! nothing more is written. So a function that puts a text needs no answer (`HasPut` of `specs/Buffer.antt`), and its caller
//! asks once at the end.
//!
//! ```text
//! let mut lines = LineBuffer::new(alloc)?;
//! put_line(&mut lines, &mut out, LoggedTurn { moment: 1500, slot: 3, turn: &turn });
//! assert_eq!(lines.flush(&mut out), Put::Done);
//! // 1500 turn 0 3 write true = done
//! ```
#![tactic(auto)]

mod buffer;
mod laws;
mod line;
mod tree_text;

pub use buffer::{LineBuffer, PIECE_BYTES};
pub use laws::constants_are_these;
pub use line::{Heading, LoggedTurn, put_heading, put_line};
pub use tree_text::put_tree;
