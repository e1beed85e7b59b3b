//! Whether the payload of an answer can be read, and is as the description says.

ghost use Rattle.std.specs.Prelude.{◌≡◌, ◌≢◌, ◌↔◌, IfOk, IfErr, IsTrue, option_map, Some, None};
ghost use Rattle.wot_json.specs.Meaning.{json_of};
ghost use Rattle.network_consumer.specs.Answers.{value_in, is_created as is_created_status, CanBeAsked, IsTaken, IsJudged};

use crate::{Status, ThingOperation};
use servient_base::NoMemory;
use std::alloc::Global;
use wot_consumer::judge_output;
use wot_json::{ReadFault, Tree, read};

/// The status of an HTTP answer that says what was made (RFC 9110, section 15.3.2).
const CREATED: u16 = 201;

/// The code of a CoAP answer that says what was made, 2.01 (RFC 7252, section 5.9.1.1).
const CREATED_CODE: u8 = 65;

/// The judgement of a payload.
#[derive(Clone, Copy, Debug, PartialEq, Eq)]
pub enum Judged {
    /// It is as the description says.
    Taken,
    /// It isn't.
    NotTaken,
    /// It is no JSON text.
    Unread,
    /// Out of memory.
    NoMemory,
}

/// The judgement of the payload of an answer with this status.
pub fn judge_payload(
    alloc: Global,
    operation: &ThingOperation<'_>,
    status: Status,
    payload: &[u8],
) -> Judged
    requires { CanBeAsked operation.now }
    ensures { IsJudged operation.now status payload.now result }
{
    match value_of(alloc, payload) {
        Ok(value) => match is_taken(alloc, operation, status, value.as_ref()) {
            Ok(true) => Judged::Taken,
            Ok(false) => Judged::NotTaken,
            Err(_) => Judged::NoMemory,
        },
        Err(fault) => match fault {
            ReadFault::NoMemory => Judged::NoMemory,
            ReadFault::NotJson | ReadFault::TooDeep | ReadFault::NotInteger(_) => Judged::Unread,
        },
    }
}

/// The value of a payload; none where that is empty.
fn value_of(alloc: Global, payload: &[u8]) -> Result<Option<Tree>, ReadFault>
    ensures ok { IfOk result (λ value. value_in payload.now ≡ Some (option_map json_of value)) }
    ensures complete { IfErr result (λ fault. fault ≢ ReadFault.NoMemory → value_in payload.now ≡ None) }
{
    if payload.is_empty() {
        return Ok(None);
    }
    match read(alloc, payload) {
        Ok(tree) => Ok(Some(tree)),
        Err(fault) => Err(fault),
    }
}

/// The answer says what was made.
fn is_created(status: Status) -> bool
    ensures { result ≡ is_created_status status }
{
    match status {
        Status::Http(status) => status == CREATED,
        Status::Coap(code) => code == CREATED_CODE,
    }
}

/// The description takes the value that comes back, or it isn't judged.
fn is_taken(
    alloc: Global,
    operation: &ThingOperation<'_>,
    status: Status,
    value: Option<&Tree>,
) -> Result<bool, NoMemory>
    requires { CanBeAsked operation.now }
    ensures { IfOk result (λ b. IsTrue b ↔ IsTaken operation.now status (option_map (λ v. json_of v.now) value.entry)) }
{
    if is_created(status) {
        return Ok(true);
    }
    judge_output(alloc, operation.tree, operation.op, operation.name, value)
}
