//! Laws of the front of a stream and of entity tags, as contracts of functions that do nothing.

ghost use Rattle.std.specs.Prelude.{◌≡◌, ◌++◌, ℕ, List};
ghost use Rattle.http_wire.specs.Stream.{Front, IsFront, IsSettled};
ghost use Rattle.http_wire.specs.Chunked.{EachWholeIsSpelled, EachSpelledIsRead};
ghost use Rattle.http_wire.specs.Conditions.{TagsAreReadAgain, NoOtherLineAsks};

/// A stream has one front at most.
pub fn one_front()
    ensures { (bytes : List ℕ) (f g : Front) → IsFront bytes f → IsFront bytes g → f ≡ g }
{}

/// A front that is a whole message or a fault stays the same when more bytes come after it. So the pieces in which a
/// stream comes decide only when a message is there.
pub fn front_is_stable()
    ensures { (bytes more : List ℕ) (f : Front) → IsFront bytes f → IsSettled f → IsFront (bytes ++ more) f }
{}

/// A whole body in chunks is read exactly where one is spelled (RFC 9112, section 7.1): each one that is read is the
/// print of chunks, a last one and trailers, and each such print is read, with the data of its chunks.
pub fn chunked_bodies_are_spelled()
    ensures whole { EachWholeIsSpelled }
    ensures spelled { EachSpelledIsRead }
{}

/// The entity tag of a version, as it is written, is read as that version.
pub fn tags_are_read_again()
    ensures { TagsAreReadAgain }
{}

/// The lines that are kept of a head ask the same of a version as all its header lines.
pub fn no_other_line_asks()
    ensures { NoOtherLineAsks }
{}
