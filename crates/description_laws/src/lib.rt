//! Descriptions that are derived are true of the servient that serves them, as laws.
//!
//! Each is the contract of a function with an empty body, so that it is proved and can be cited; no code needs to call
//! it.
//!
//! - Each form of a derived description leads to its own affordance, and each of its operations is done there:
//!   `forms_lead_to_their_affordances`.
//! - What is done at a path of such a Thing has its form: `acts_have_their_form`.
//! - A name of any bytes is the same after it was percent-encoded and decoded: `encoding_is_undone`.
#![tactic(auto)]

mod laws;

pub use laws::{acts_have_their_form, encoding_is_undone, forms_lead_to_their_affordances};
