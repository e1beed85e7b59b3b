//! Values in test cases: JSON texts and the descriptions of Things (`values.rt`), and devices that answer from a list
//! (`devices.rt`).
#![tactic(auto)]

mod devices;
mod values;

pub use devices::{Device, device_of};
pub use values::{described, tree_of};
