//! The verbs that are taken at each kind of path.

ghost use Rattle.std.specs.Prelude.{◌≡◌, ◌+◌, ◌≤◌, length};
ghost use Rattle.thing_ops.specs.Verbs.{takes as takes_verb, name_at, names_of, verbs_in, verbs_of};
ghost use Rattle.servient_base.specs.Writing.{Puts};

use crate::words::put;
use crate::{RouteKind, Verb};

/// The verbs in the order in which they are listed.
const IN_ORDER: [Verb; 6] = [
    Verb::Get,
    Verb::Head,
    Verb::Put,
    Verb::Post,
    Verb::Patch,
    Verb::Delete,
];

/// The number of bytes in which any list of verbs has room: the longest has 35.
pub const LONGEST_LINE: usize = 48;

/// The members of a property that say how it is used (TD 1.1, section 5.3.2.1).
#[derive(Clone, Copy, Debug, PartialEq, Eq, Drop)]
pub struct Flags {
    /// `readOnly` is true.
    pub read_only: bool,
    /// `writeOnly` is true.
    pub write_only: bool,
}

/// The verbs that are taken at a path: `get` says that GET is, and so on.
#[derive(Clone, Copy, Debug, PartialEq, Eq, Drop)]
pub struct Allow {
    pub get: bool,
    pub head: bool,
    pub put: bool,
    pub post: bool,
    pub patch: bool,
    pub delete: bool,
}

/// No verb.
const NONE: Allow = Allow {
    get: false,
    head: false,
    put: false,
    post: false,
    patch: false,
    delete: false,
};

/// The verbs that are taken at such a path. The flags are those of the property that the path leads to, and say nothing
/// of any other path.
pub fn allowed(route: RouteKind, flags: Flags) -> Allow
    ensures { verbs_in result ≡ verbs_of route flags }
{
    let read = Allow {
        get: true,
        head: true,
        ..NONE
    };
    match route {
        RouteKind::Root | RouteKind::Thing | RouteKind::Event => read,
        RouteKind::All => Allow { put: true, ..read },
        RouteKind::Property => Allow {
            get: !flags.write_only,
            head: !flags.write_only,
            put: !flags.read_only,
            ..NONE
        },
        RouteKind::Observe | RouteKind::Subscribe => Allow { get: true, ..NONE },
        RouteKind::Action => Allow { post: true, ..NONE },
        RouteKind::Invocation(_) => Allow {
            delete: true,
            ..read
        },
        RouteKind::Things => Allow { post: true, ..read },
        RouteKind::Entry => Allow {
            put: true,
            patch: true,
            delete: true,
            ..read
        },
        RouteKind::Nowhere => NONE,
    }
}

impl Allow {
    /// The verb is among these.
    pub fn takes(self, verb: Verb) -> bool
        ensures { result ≡ takes_verb self verb }
    {
        match verb {
            Verb::Get => self.get,
            Verb::Head => self.head,
            Verb::Put => self.put,
            Verb::Post => self.post,
            Verb::Patch => self.patch,
            Verb::Delete => self.delete,
            Verb::Other => false,
        }
    }

    /// Writes what the field `Allow` says of these verbs (RFC 9110, section 10.2.1) to the beginning of `out`, and
    /// returns its length. After it `out` stays as it was. The room is lent, so that the line takes no memory.
    pub fn write(self, out: &mut [u8; LONGEST_LINE]) -> usize
        ensures { Puts (names_of (verbs_in self)) 0 result out.old out.new }
    {
        let mut at = 0;
        for verb in IN_ORDER {
            if self.takes(verb) {
                at = put_name(out, at, verb);
            }
        }
        at
    }
}

/// Writes the name of a verb at a place of `out`, after a comma and a blank where the place isn't the first one, and
/// returns the place after it.
fn put_name(out: &mut [u8], at: usize, verb: Verb) -> usize
    requires { at + 8 ≤ length out.old }
    ensures text { Puts (name_at at verb) at result out.old out.new }
    ensures short { result ≤ at + 8 }
{
    if at == 0 {
        put(out, at, verb.name().as_bytes())
    } else {
        let after = put(out, at, b", ");
        put(out, after, verb.name().as_bytes())
    }
}
