//! The decisions of a consumer of a Thing by the Thing's description (TD 1.1): the form by which an operation is done,
//! the request that is sent there, and whether a value that is handed in or comes back is as the description says.
//!
//! `choose` gives the first form that qualifies, as `IsChosen` of `specs/Choice.antt` says; `http_request` writes the
//! request, `request_bytes` of `specs/Messages.antt`; `judge_input` and `judge_output` hold values against schemas,
//! `AcceptsInput` and `AcceptsOutput` of `specs/Judgement.antt`. `things_in` gives the Things to which the links of a
//! server lead, as `SaysOfThings` of `specs/Discovery.antt` says. Nothing here knows a socket or a moment.
//!
//! ```text
//! let chosen = choose(alloc, &tree, Op::WriteProperty, "status", Some(Scheme::Http))?;
//! let request = http_request(alloc, &chosen, Some(b"true"))?;
//! // PUT /lamp/properties/status HTTP/1.1
//! // Host: lamp.local:80
//! // Accept: application/json
//! // Content-Type: application/json
//! // Content-Length: 4
//! // Connection: close
//! //
//! // true
//!
//! let server = server_url(alloc, "lamp.local", 5683)?;
//! let lines = things_in(alloc, server.as_str(), br#"</lamp>;rt="wot.thing",</x>"#)?;
//! // Some("coap://lamp.local:5683/lamp\n")
//! ```
#![tactic(auto)]

mod choice;
mod chosen;
mod discovery;
mod judgement;
mod messages;
mod operations;
mod places;
mod wanted;

pub use choice::choose;
pub use chosen::{ChooseFault, Chosen};
pub use discovery::{links_request, server_url, things_in};
pub use judgement::{judge_input, judge_output};
pub use messages::http_request;
pub use servient_base::NoMemory;
pub use wot_forms::Scheme;
