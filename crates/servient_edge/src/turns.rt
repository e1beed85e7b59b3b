//! The order of turns, and the result of a connection's turn: the connections and the listener wait in a circle, each
//! at most once.

ghost use Rattle.std.specs.Prelude.{◌≡◌, ◌<◌, IfSome, slice_set, true};
ghost use Rattle.servient_edge.specs.Turns.{first_of, next_of, without, last_after, none_of};

/// The most connections that there are.
pub const CONNECTIONS: usize = 64;

/// The place of the listener; a connection's is its number.
pub const LISTENER: usize = 64;

/// The number of the socket for datagrams, which has no place.
pub const DATAGRAMS: usize = 65;

const PLACES: usize = 65;

/// The result of a turn of a connection.
#[derive(Clone, Copy, Debug, PartialEq, Eq)]
pub enum Took {
    Bytes(usize),
    /// Bytes came after the connection was closed.
    Unwanted,
    Nothing,
    /// The peer is gone.
    Ended,
    /// The peer is gone, and the connection was closed before.
    Over,
}

/// Those that may have something to give.
#[derive(Drop)]
pub struct Turns {
    waiting: [bool; PLACES],
    // The place that had the last turn.
    last: usize,
    ghost last_in_bounds: { last < 65 },
}

impl Turns {
    /// None waits.
    pub fn new() -> Turns {
        Turns {
            waiting: [false; PLACES],
            last: 0,
        }
    }

    /// This one waits, if there is one of this number.
    pub fn add(&mut self, place: usize)
        ensures waits { self.new.waiting ≡ slice_set self.old.waiting place true }
        ensures last { self.new.last ≡ self.old.last }
    {
        if place < PLACES {
            self.waiting[place] = true;
        }
    }

    /// The next that waits, in the circle. It waits no longer.
    pub fn next(&mut self) -> Option<usize>
        ensures bound { IfSome result (λ place. place < 65) }
        ensures place { result ≡ next_of self.old.last self.old.waiting }
        ensures others { self.new.waiting ≡ without result self.old.waiting }
        ensures last { self.new.last ≡ last_after result self.old.last }
    {
        let place = self.place()?;
        self.waiting[place] = false;
        self.last = place;
        Some(place)
    }

    /// The next that waits, in the circle.
    fn place(&self) -> Option<usize>
        ensures bound { IfSome result (λ place. place < 65) }
        ensures place { result ≡ next_of self.now.last self.now.waiting }
    {
        let next = self.last + 1;
        match first(&self.waiting[next..]) {
            Some(step) => Some(next + step),
            None => first(&self.waiting),
        }
    }

    /// None waits.
    pub fn is_empty(&self) -> bool
        ensures { result ≡ none_of self.now.waiting }
    {
        first(&self.waiting).is_none()
    }
}

/// The first that waits.
fn first(waiting: &[bool]) -> Option<usize>
    ensures { result ≡ first_of waiting.now }
{
    waiting.iter().position(|waits| *waits)
}
