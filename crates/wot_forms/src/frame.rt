//! The names of Things that are served together, and the addresses at which they are.

use crate::Bases;
use wot_json::Text;

/// The names of a root Thing, and the addresses at which it and the Things that it is composed of are served.
#[derive(Debug, Drop)]
pub struct Frame {
    /// The segment of the root in the paths of its URLs. A Thing below another has the segment of that, `~`, and its
    /// instance name.
    pub segment: Text,
    /// The `id` of the root. A Thing below another has the id of that, `~`, and its instance name.
    pub id: Text,
    /// The bases with which the URLs of the forms begin.
    pub bases: Bases,
    /// The `instance` of a `version` that has none (Thing Description 1.1, section 5.3.1.6).
    pub instance: Option<Text>,
}
