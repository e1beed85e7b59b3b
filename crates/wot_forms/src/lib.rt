//! Forms of Thing Descriptions (TD 1.1, section 5.3.4.2): where an operation is done, and how.
//!
//! `forms_of` lists the forms of an affordance or of a description as a whole with all that they leave to defaults,
//! by `forms_in` of `specs/Forms.antt`; `resolve` gives the URL that an `href` names. `generate` puts the forms that
//! a servient serves over HTTP and CoAP into a description, by `generated` of `specs/Generated.antt`.
//!
//! ```text
//! let lamp = read(alloc, br#"{"actions":{"fade":{}}}"#)?;
//! let thing = generate(alloc, &lamp, &bases, "lamp")?;
//! let forms = pointer(&thing, "/actions/fade/forms")?;
//! // [{"contentType":"application/json","href":"http://h:80/lamp/actions/fade","op":["invokeaction"]},
//! //  {"contentType":"application/json","href":"coap://h:5683/lamp/actions/fade","op":["invokeaction"]}]
//! ```
#![tactic(auto)]

mod affordance_forms;
mod bases;
mod form;
mod form_values;
mod frame;
mod generation;
mod href;
mod listing;
mod ops;
mod scheme;
mod segments;
mod urls;

pub use bases::Bases;
pub use form::{Form, Forms};
pub use frame::Frame;
pub use generation::generate;
pub use href::{HrefFault, resolve};
pub use listing::forms_of;
pub use ops::{Ops, default_ops};
pub use scheme::Scheme;
pub use segments::has_name_bytes;
