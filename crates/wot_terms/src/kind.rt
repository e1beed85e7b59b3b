//! The three kinds of affordances.

ghost use Rattle.std.specs.Prelude.{◌≡◌};
ghost use Rattle.wot_terms.specs.Faults.{holder as holder_of};

/// The kind of an affordance (TD 1.1, sections 5.3.1.3 to 5.3.1.5).
#[derive(Clone, Copy, Debug, PartialEq, Eq)]
pub enum Kind {
    Property,
    Action,
    Event,
}

impl Kind {
    /// The member of a Thing that holds the affordances of this kind (section 5.3.1.1).
    pub fn holder(self) -> &'static str
        ensures { result.now ≡ holder_of self }
    {
        match self {
            Kind::Property => "properties",
            Kind::Action => "actions",
            Kind::Event => "events",
        }
    }
}
