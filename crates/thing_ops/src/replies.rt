//! The status of an outcome over HTTP and its code over CoAP, by the table in `specs/Outcomes.antt`.

ghost use Rattle.std.specs.Prelude.{◌≡◌, Some};
ghost use Rattle.thing_ops.specs.Outcomes.{answer_of, HasStatus, HasCode};

use crate::Outcome;

/// The status over HTTP (RFC 9110, section 15). A request that waits has none yet.
pub fn http_status(outcome: &Outcome) -> u16
    requires { HasStatus outcome.now }
    ensures { (answer_of outcome.now).status ≡ Some result }
{
    match outcome {
        Outcome::Content { .. }
        | Outcome::Description(_, _)
        | Outcome::Output(_)
        | Outcome::Listed(_) => 200,
        Outcome::Started(_, _) | Outcome::Created(_) => 201,
        Outcome::Empty | Outcome::Changed | Outcome::Deleted => 204,
        Outcome::NotModified(_) => 304,
        Outcome::BadValue
        | Outcome::Invalid(_)
        | Outcome::IdDiffers
        | Outcome::HasId
        | Outcome::BadTtl => 400,
        Outcome::Refused(_) => 403,
        Outcome::NotFound => 404,
        Outcome::NotAllowed(_) => 405,
        Outcome::NotAcceptable => 406,
        Outcome::PreconditionFailed => 412,
        Outcome::TooLarge => 413,
        Outcome::Format => 415,
        Outcome::DeviceFault(_) | Outcome::BadAnswer => 500,
        Outcome::InvocationsFull | Outcome::CallsUsed | Outcome::DirectoryFull => 503,
        Outcome::Memory => 507,
        Outcome::Wait(_) => unreachable!(),
    }
}

/// The number of codes of a class (RFC 7252, section 3): the detail has 5 bits.
const CLASS: u8 = 32;

/// The code over CoAP (RFC 7252, section 5.9): the class times 32, and the detail. The directory's own outcomes have
/// none, since it isn't reached over CoAP.
pub fn coap_code(outcome: &Outcome) -> u8
    requires { HasCode outcome.now }
    ensures { (answer_of outcome.now).code ≡ Some result }
{
    match outcome {
        Outcome::Started(_, _) => CLASS * 2 + 1,
        Outcome::Deleted => CLASS * 2 + 2,
        Outcome::NotModified(_) => CLASS * 2 + 3,
        Outcome::Changed | Outcome::Output(_) => CLASS * 2 + 4,
        Outcome::Content { .. } | Outcome::Description(_, _) | Outcome::Empty => CLASS * 2 + 5,
        Outcome::BadValue => CLASS * 4 + 0,
        Outcome::Refused(_) => CLASS * 4 + 3,
        Outcome::NotFound | Outcome::Wait(_) => CLASS * 4 + 4,
        Outcome::NotAllowed(_) => CLASS * 4 + 5,
        Outcome::NotAcceptable => CLASS * 4 + 6,
        Outcome::PreconditionFailed => CLASS * 4 + 12,
        Outcome::TooLarge => CLASS * 4 + 13,
        Outcome::Format => CLASS * 4 + 15,
        Outcome::DeviceFault(_) | Outcome::BadAnswer => CLASS * 5 + 0,
        Outcome::InvocationsFull | Outcome::CallsUsed | Outcome::Memory => CLASS * 5 + 3,
        Outcome::Created(_)
        | Outcome::Listed(_)
        | Outcome::Invalid(_)
        | Outcome::IdDiffers
        | Outcome::HasId
        | Outcome::BadTtl
        | Outcome::DirectoryFull => unreachable!(),
    }
}
