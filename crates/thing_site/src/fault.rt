//! The faults for which Things can't be exposed.

use servient_base::NoMemory;
use thiserror::Error;
use wot_json::Text;

/// The cause for which Things, slots and a rack don't fit: the segment of the Thing and the pointer to the affordance
/// (RFC 6901) of the first one, in the order of Things and affordances.
#[derive(Debug, Drop, Error)]
pub enum ExposeFault {
    /// The affordance is given no slot, or none of the rack.
    #[error("`{1}` of `{0}` has no slot")]
    NoSlot(Text, Text),
    /// The handler in its slot is of another kind.
    #[error("the handler of `{1}` of `{0}` is of another kind")]
    KindDiffers(Text, Text),
    /// An earlier affordance has its slot.
    #[error("the slot of `{1}` of `{0}` is taken")]
    SlotTwice(Text, Text),
    /// Out of memory.
    #[error("out of memory")]
    NoMemory,
}

impl From<NoMemory> for ExposeFault {
    ghost use Rattle.std.specs.Prelude.{◌≡◌};
    ghost use Rattle.thing_site.specs.declared.fault.ExposeFault.TheVariants as fault;

    ghost from_gives = { λ _ e. e ≡ fault.NoMemory };

    fn from(_: NoMemory) -> Self {
        ExposeFault::NoMemory
    }
}
