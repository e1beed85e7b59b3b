//! The meaning of a CoAP request, read from its message.

ghost use Rattle.std.specs.Prelude.{◌≡◌, ◌<◌, ◌⊎◌, ◌==◌, ◌&&◌, not, [], ◌∷◌, Some, IfOk, IfErr, OnOk, slice_get};
ghost use Rattle.coap_msg.specs.MessageOf.{message_of};
ghost use Rattle.coap_opts.specs.Reading.{faults_of, verb_of, format_of, accept_of, asked, HasBlocks, IsRefusal};
ghost use Rattle.coap_opts.specs.AskSeen.{ask_seen};

use crate::AskFault;
use crate::conditions::read_conditions;
use crate::found::{FoundOptions, note_all, refusal};
use crate::known::{ACCEPT, CONTENT_FORMAT, OBSERVE};
use crate::values::numeric;
use coap_msg::{Block, DELETE, GET, JSON, Message, POST, PUT, TD_JSON, read_block};
use std::alloc::Global;
use thing_ops::{Accept, Format, Request, Segments, Verb};

/// The meaning of a CoAP request. It borrows the body from the message.
#[derive(Debug, Drop)]
pub struct CoapAsk<'a> {
    /// The request; its query is empty, since Uri-Query isn't read.
    pub request: Request<'a>,
    /// The value of Observe (RFC 7641, section 2), where the request has it and it counts.
    pub observe: Option<u32>,
    /// The block of the request's body that it has (Block1; RFC 7959, section 2.2), where its body comes in blocks.
    pub block1: Option<Block>,
    /// The block of the response that is wanted (Block2), where it says one.
    pub block2: Option<Block>,
}

/// The meaning of a request, or the fault of the first option that has one.
pub fn request_of<'a>(alloc: Global, message: &Message<'a>) -> Result<CoapAsk<'a>, AskFault>
    requires code { 0 < message.now.code }
    requires class { message.now.code < 32 }

    ensures ok { IfOk result (λ ask. (faults_of message.now.options ≡ []) ×
        (ask_seen ask ≡ asked (message_of message.now))) }
    ensures blocks { IfOk result (λ ask. HasBlocks (ask_seen ask)) }

    // It is out of memory only where nothing is wrong with the options.
    ensures fault { IfErr result (λ e. IsRefusal message.now.options e) }
{
    // The bytes of all options are room enough for those of the path, so the options are gone over once. Out of memory
    // they are gone over again, because a wrong option is named even then.
    let path = match Segments::with_capacity(alloc, message.options.as_bytes().len()) {
        Ok(path) => path,
        Err(_) => return Err(refusal(&message.options)),
    };
    let mut found = FoundOptions {
        path,
        observe: None,
        format: None,
        accept: None,
        block2: None,
        block1: None,
        conditional: false,
    };
    note_all(&mut found, &message.options)?;
    let observe = numeric(OBSERVE, found.observe);
    // The options ETag of a request that registers don't count, since its notifications are new.
    let counts = message.code == GET && observe != Some(0);
    let conditions = read_conditions(alloc, &message.options, found.conditional, counts)?;
    let request = Request {
        verb: verb(message.code),
        path: found.path,
        query: b"",
        accept: accept(numeric(ACCEPT, found.accept)),
        format: format(numeric(CONTENT_FORMAT, found.format)),
        body: message.payload,
        conditions,
    };
    // Closures, since a function of another crate isn't a value for the prover.
    Ok(CoapAsk {
        request,
        observe,
        block1: found.block1.and_then(|value| read_block(value)),
        block2: found.block2.and_then(|value| read_block(value)),
    })
}

/// The verb of a code of class 0 (RFC 7252, section 12.1.1).
fn verb(code: u8) -> Verb
    ensures { result ≡ verb_of code }
{
    match code {
        GET => Verb::Get,
        POST => Verb::Post,
        PUT => Verb::Put,
        DELETE => Verb::Delete,
        _ => Verb::Other,
    }
}

/// The media type of a content format.
fn format(number: Option<u32>) -> Format
    ensures { result ≡ format_of number }
{
    match number {
        None => Format::Absent,
        Some(number) if number == u32::from(JSON) => Format::Json,
        Some(number) if number == u32::from(TD_JSON) => Format::Td,
        Some(_) => Format::Other,
    }
}

/// The formats that are taken in an answer.
fn accept(number: Option<u32>) -> Accept
    ensures { result ≡ accept_of number }
{
    match number {
        None => Accept {
            json: true,
            td: true,
        },
        Some(number) => Accept {
            json: number == u32::from(JSON),
            td: number == u32::from(TD_JSON),
        },
    }
}
