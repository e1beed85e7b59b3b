//! Descriptions of Things, and the words for what is done with them.

ghost use Rattle.std.specs.Prelude.{IfOk, IfSome, IsTrue};
ghost use Rattle.wot_json.specs.Meaning.{json_of};
ghost use Rattle.wot_terms.specs.Faults.{IsValid};
ghost use Rattle.wot_consumer.specs.Operations.{is_consumed};

use cases_notation::bytes_of;
use std::alloc::{AllocError, Global};
use wot_consumer::Scheme;
use wot_json::{ReadFault, Tree, merge_patch, read};
use wot_terms::{CheckFault, Op, check};

/// The members that every description has to have.
const FRAME: &[u8] =
    br#"{"@context":"https://www.w3.org/2022/wot/td/v1.1","title":"Lamp","security":"n","securityDefinitions":{"n":{"scheme":"nosec"}}}"#;

/// The value of a JSON text; none where it is no JSON.
pub fn value_of(alloc: Global, bytes: &[u8]) -> Result<Option<Tree>, AllocError> {
    match read(alloc, bytes) {
        Ok(tree) => Ok(Some(tree)),
        Err(ReadFault::NoMemory) => Err(AllocError),
        Err(_) => Ok(None),
    }
}

/// The description, where it is valid.
fn checked(alloc: Global, tree: Tree) -> Result<Option<Tree>, AllocError>
    ensures { IfOk result (λ o. IfSome o (λ t. IsValid (json_of t))) }
{
    match check(alloc, &tree) {
        Ok(()) => Ok(Some(tree)),
        Err(CheckFault::NoMemory) => Err(AllocError),
        Err(CheckFault::Td(_)) => Ok(None),
    }
}

/// The frame with these members.
fn framed(alloc: Global, members: &Tree) -> Result<Option<Tree>, AllocError>
    ensures { IfOk result (λ o. IfSome o (λ t. IsValid (json_of t))) }
{
    match value_of(alloc, FRAME)? {
        Some(frame) => checked(alloc, merge_patch(alloc, &frame, members)?),
        None => Ok(None),
    }
}

/// The description with these members, as `bytes.rt` of `cases_notation` writes bytes; none where it isn't valid.
pub fn description_of(alloc: Global, members: &str) -> Result<Option<Tree>, AllocError>
    ensures { IfOk result (λ o. IfSome o (λ t. IsValid (json_of t))) }
{
    let bytes = bytes_of(alloc, members)?;
    match value_of(alloc, bytes.as_slice())? {
        Some(members) => framed(alloc, &members),
        None => Ok(None),
    }
}

/// The operation of a name.
pub fn op_of(name: &str) -> Option<Op>
    ensures { IfSome result (λ op. IsTrue (is_consumed op)) }
{
    match name {
        "readproperty" => Some(Op::ReadProperty),
        "writeproperty" => Some(Op::WriteProperty),
        "observeproperty" => Some(Op::ObserveProperty),
        "invokeaction" => Some(Op::InvokeAction),
        "readallproperties" => Some(Op::ReadAllProperties),
        _ => None,
    }
}

/// The scheme of a word; none of any other word.
pub fn scheme_of(word: &str) -> Option<Scheme> {
    match word {
        "http" => Some(Scheme::Http),
        "coap" => Some(Scheme::Coap),
        _ => None,
    }
}
