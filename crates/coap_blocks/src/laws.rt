//! Laws of bodies and parts over whole histories, as contracts of functions that do nothing, since a law is proved only
//! as a clause.

ghost use Rattle.std.specs.Prelude.{◌≡◌};
ghost use Rattle.coap_blocks.specs.Laws.{BodiesAreOnesOwn, BodiesFollowThePuts, PartsAreRows, TheLastBodyIsGot, WholeBodiesAreRows};

use crate::bodies::MOST_BODIES;
use crate::body_place::LONGEST_BODY;
use crate::kept_path::LARGEST_PATH;
use crate::part_place::LONGEST_REQUEST;
use crate::parts::MOST_PARTS;

/// The kept bodies are those that the history of all puts says: not replaced, and among the last 16.
pub fn bodies_follow_the_puts()
    ensures { BodiesFollowThePuts }
{}

/// `get` gives the last body that was put for that endpoint and path, whole (RFC 7959, section 2.4).
pub fn the_last_body_is_got()
    ensures { TheLastBodyIsGot }
{}

/// No endpoint is given a body that was put for another one, nor for another path.
pub fn bodies_are_ones_own()
    ensures { BodiesAreOnesOwn }
{}

/// Each part, at any time, is made of blocks that came, in their order, all of one endpoint, code and path, from the
/// beginning of the body on (RFC 7959, section 2.5).
pub fn parts_are_rows()
    ensures { PartsAreRows }
{}

/// A whole body is made of blocks that came before and the one that completes it: none is whole without its first
/// block, and no block is joined twice.
pub fn whole_bodies_are_rows()
    ensures { WholeBodiesAreRows }
{}

/// The constants of bodies and of parts as numbers: how many are kept, and the most bytes of a body that is sent, of one
/// that is received, and of a path.
pub fn constants_are_these()
    ensures most_bodies { MOST_BODIES ≡ 16 }
    ensures most_parts { MOST_PARTS ≡ 8 }
    ensures longest_body { LONGEST_BODY ≡ 65536 }
    ensures longest_request { LONGEST_REQUEST ≡ 16384 }
    ensures largest_path { LARGEST_PATH ≡ 1280 }
{}
