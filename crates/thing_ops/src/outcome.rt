//! The outcomes of requests.

ghost use Rattle.std.specs.Prelude.{◌≡◌, ◌<◌, ◌^◌, option_map, IfSome};
ghost use Rattle.thing_ops.specs.Outcomes.{text_of, version_of};

use crate::{Allow, NoMemory, Segments};
use servient_base::Target;
use wot_json::{Bytes, Text};

/// The outcome of a request. `specs/Outcomes.antt` says how each is answered.
#[derive(Debug, Drop)]
pub enum Outcome {
    /// A value.
    Content {
        /// The value, as a JSON text.
        text: Bytes,
        /// The version of the property that was read, which is at least 1; none where one property wasn't read by
        /// itself.
        tag: Option<u32>,
    },
    /// A description, as a JSON text; and whether it is sent as `application/td+json`.
    Description(Bytes, bool),
    /// The property that was read has this version, and the sender has it already.
    NotModified(u32),
    /// There is no value yet.
    Empty,
    /// The request is done, and there is nothing to say of it.
    Changed,
    /// The output of an action, as a JSON text.
    Output(Bytes),
    /// An action runs: the path of its invocation, and the invocation's status as a JSON text.
    Started(Segments, Bytes),
    /// The thing at the path is gone.
    Deleted,
    /// The directory has a new entry; its id, where the directory chose it.
    Created(Option<Text>),
    /// The entries of the directory, as a JSON text.
    Listed(Bytes),
    /// The request waits for the next value or emission of this target.
    Wait(Target),
    /// There is nothing at the path.
    NotFound,
    /// These verbs are taken at the path, and the request's isn't.
    NotAllowed(Allow),
    /// The sender takes no media type that the answer could have.
    NotAcceptable,
    /// The body isn't in a format that is taken here.
    Format,
    /// The body is missing or unwanted, can't be read, or isn't what the schema asks.
    BadValue,
    /// The value is longer than is taken here.
    TooLarge,
    /// The property isn't of a version that the request asks for.
    PreconditionFailed,
    /// The device refused, for the reason of this number.
    Refused(u16),
    /// The device has a fault, of this number.
    DeviceFault(u16),
    /// The device answered what it mustn't.
    BadAnswer,
    /// No further invocation can run with those that do.
    InvocationsFull,
    /// The run has no number left for another call of a handler.
    CallsUsed,
    /// The description breaks the rule of this number.
    Invalid(u8),
    /// The description's own id isn't the one in the path.
    IdDiffers,
    /// The description has an id, where the directory gives it one.
    HasId,
    /// The registration information of the description is no object, or its time to live is none that is taken.
    BadTtl,
    /// The directory has no room for another entry.
    DirectoryFull,
    /// Out of memory.
    Memory,
}

impl From<NoMemory> for Outcome {
    ghost use Rattle.std.specs.Prelude.{◌≡◌};
    ghost use Rattle.thing_ops.specs.declared.outcome.Outcome.TheVariants as outcome;

    ghost from_gives = { λ _ o. o ≡ outcome.Memory };

    fn from(_: NoMemory) -> Self {
        Outcome::Memory
    }
}

impl Outcome {
    /// The text that the outcome carries and that is its payload. An outcome that carries none has its word as its
    /// payload.
    pub fn text(&self) -> Option<&[u8]>
        ensures { option_map (λ t. t.now) result ≡ text_of self.now }
    {
        match self {
            Outcome::Content { text, .. }
            | Outcome::Description(text, _)
            | Outcome::Output(text)
            | Outcome::Started(_, text)
            | Outcome::Listed(text) => Some(text.as_slice()),
            _ => None,
        }
    }
    /// The version of the property that was read, whose entity tag is said; the reply has none where there is none.
    pub fn version(&self) -> Option<u32>
        ensures version { result ≡ version_of self.now }
        ensures bound { IfSome result (λ n. n < 2 ^ 32) }
    {
        match self {
            Outcome::Content {
                text: _,
                tag: Some(tag),
            } => Some(*tag),
            Outcome::NotModified(tag) => Some(*tag),
            _ => None,
        }
    }
}
