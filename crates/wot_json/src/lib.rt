//! JSON trees: their values, their text, pointers into them, and patches of them.
//!
//! A `Tree` is a JSON value (RFC 8259) whose numbers are whole and have 64 bits with sign. The members of an
//! object have distinct names, in their byte order. `read` gives the tree of a JSON text; `write` and
//! `text_of` give the one text of a tree, `json_text` of `specs/Json.antt`, `quoted` that of a text, and
//! `quoted_length` its length. `pointer` gives the value at a place (RFC 6901), and `merge_patch` changes one
//! tree by another (RFC 7396).
//!
//! ```text
//! let lamp = read(alloc, br#"{"on":false,"levels":[1,2]}"#)?;
//! let patch = read(alloc, br#"{"on":true,"levels":null}"#)?;
//! let changed = merge_patch(alloc, &lamp, &patch)?;
//! assert_eq!(text_of(alloc, &changed)?.as_slice(), br#"{"on":true}"#);
//! assert!(matches!(pointer(&lamp, "/levels/1")?, Some(Tree::Int(2))));
//! ```
#![tactic(auto)]

mod bytes;
mod equality;
mod json_text;
mod laws;
mod lookup;
mod patch;
mod places;
mod reading;
mod text;
mod texts;
mod tree;

pub use bytes::Bytes;
pub use equality::is_equal;
pub use json_text::{quoted, quoted_length, text_of, write};
pub use laws::{
    constants_are_these, merge_goes_by_members, merging_twice_is_merging_once,
    pointers_are_their_tokens, text_is_read_back, tree_is_well_formed,
};
pub use lookup::{BadPointer, pointer};
pub use patch::merge_patch;
pub use places::{below, below_index, through_element, through_member};
pub use reading::{MAX_DEPTH, ReadFault, read};
pub use servient_base::NoMemory;
pub use text::Text;
pub use texts::has_text;
pub use tree::{Items, Members, Tree, copy};
