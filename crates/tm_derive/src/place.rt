//! The place of one Thing among those of a derivation.

use wot_json::Text;

/// The place of a Thing.
#[derive(Debug, Drop)]
pub(crate) struct ThingPlace {
    pub(crate) segment: Text,
    pub(crate) id: Text,
    /// The URL of its model.
    pub(crate) model: Text,
    /// The segment of the Thing that has it as a part.
    pub(crate) parent: Option<Text>,
}
