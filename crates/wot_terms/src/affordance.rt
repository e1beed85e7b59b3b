//! Affordances of a valid description.

use crate::Kind;
use wot_json::Text;
use wot_schema::Schema;

/// An affordance of a Thing (TD 1.1, section 5.3.1.2).
#[derive(Debug, Drop)]
pub struct Affordance {
    pub kind: Kind,
    pub name: Text,
    /// The schema of the value that is handed in: a property's own schema, an action's `input`.
    pub input: Option<Schema>,
    /// The schema of the value that comes back: a property's own schema, an action's `output`, an event's `data`.
    pub output: Option<Schema>,
    pub read_only: bool,
    pub write_only: bool,
    pub observable: bool,
}
