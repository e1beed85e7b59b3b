//! The table of a plan: what the plan gives each affordance of its Things, and which of its members give nothing.
//!
//! `table_text` gives the text of the table, by `table_text` of `specs/Table.antt`. It asks neither that each affordance has
//! a slot nor that its handler is of the right kind: the table shows both.
//!
//! ```
//! use plan_table::table_text;
//!
//! // The plan names the slot of one property, which the rack has, and `/properties/stat` by mistake.
//! let text = table_text(alloc, &plan, things.as_slice(), &rack)?;
//! // "lamp" property "status" 0 property observable http://127.0.0.1:8080/lamp/properties/status coap://..
//! // unused slot "lamp" "/properties/stat" 1
//! ```
#![tactic(auto)]

mod row;
mod text;
mod unused;

pub use row::Row;
pub use servient_base::NoMemory;
pub use text::table_text;
