//! The links of a slot to its neighbours, and the two ends of a list.

/// The neighbours of a slot in its list.
#[derive(Clone, Copy)]
pub struct SlotLink {
    /// The one before it.
    pub previous: Option<u32>,
    /// The one after it.
    pub next: Option<u32>,
}

/// The two ends of a list.
#[derive(Clone, Copy)]
pub struct Ends {
    /// Its first slot.
    pub first: Option<u32>,
    /// Its last slot.
    pub last: Option<u32>,
}

impl Ends {
    ghost use Rattle.std.specs.Prelude.{◌≡◌};
    ghost use Rattle.slot_lists.specs.Links.{ends_without};

    /// The ends once the slot with this link was taken out.
    pub fn without(&self, link: SlotLink) -> Ends
        ensures { result ≡ ends_without link self.now }
    {
        let first = match link.previous {
            Some(_) => self.first,
            None => link.next,
        };
        let last = match link.next {
            Some(_) => self.last,
            None => link.previous,
        };
        Ends { first, last }
    }
}
