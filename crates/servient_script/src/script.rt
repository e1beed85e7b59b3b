//! Replay scripts: text files of events, one on each line.
//!
//! The grammar is specs/Script.antt. `Script::read` goes from line to line, `event_of` cuts one line
//! into its fields, and `event_at` has a pattern for each kind of line. All of them read exactly what
//! the grammar writes.

ghost use Rattle.std.specs.Prelude.{◌≡◌, ◌≢◌, ◌<◌, ◌≤◌, ℕ, List, [], ◌∷◌, ◌++◌, ◌==◌, ◌&&◌, ◌||◌, nat_lt, slice_index, length, map, All, codes, decimal, IfOk, IfSome, IsSomeAnd, MatchOption, MatchResult};
ghost use Rattle.std.specs.Char.{is_ascii_uppercase};
ghost use Rattle.std.specs.List.{list_any};
ghost use Rattle.std.specs.Str.{IsUtf8};
ghost use Rattle.coap_msg.specs.declared.endpoint.Endpoint.{Endpoint};
ghost use Rattle.servient_outside.specs.declared.net.EventWithBytes.{EventWithBytes};
ghost use Rattle.servient_script.specs.Fields.{fields_text, AreFields};
ghost use Rattle.servient_script.specs.Script.{longest_script, hex_text, endpoint_text, line_text, has_stop, IsScriptEndpoint, IsScriptEvent, StopsAtEnd, IsScript, IsFirstBadLine, ReadsEvent};

use arrayvec::ArrayVec;
use coap_msg::Endpoint;
use hex::FromHexError;
use servient_base::parse_decimal;
use servient_outside::{Event, EventWithBytes, Events, What};
use std::alloc::{AllocError, Global};
use std::marker::Model;
use std::str;
use thiserror::Error;
use wot_json::{Bytes, NoMemory};

/// The longest script, in bytes.
pub const LONGEST_SCRIPT: usize = 16_777_216;

/// The latest moment of an event, in milliseconds.
pub(crate) const LATEST_MOMENT: u64 = 1_000_000_000_000_000;

/// The most bytes of a datagram, and those that come at once on a connection.
const LONGEST_DATAGRAM: usize = 2048;

const LONGEST_PIECE: usize = 4096;

/// The highest number of a connection.
const LAST_CONNECTION: u64 = 63;

/// The most fields of a line.
pub(crate) const MOST_FIELDS: usize = 4;

/// Each line ends with it.
pub(crate) const LINE_FEED: u8 = b'\n';

/// The cause for which some bytes are no script.
#[derive(Debug, Drop, Error)]
pub enum ScriptFault {
    /// The first line, counted from 1, that is not in the grammar.
    #[error("line {0} is not in the grammar of scripts")]
    Line(u32),
    /// It is out of memory.
    #[error("out of memory")]
    NoMemory,
}

impl From<NoMemory> for ScriptFault {
    ghost use Rattle.std.specs.Prelude.{◌≡◌};
    ghost use Rattle.servient_script.specs.declared.script.ScriptFault.TheVariants as fault;

    ghost from_gives = { λ _ e. e ≡ fault.NoMemory };

    fn from(_: NoMemory) -> Self {
        ScriptFault::NoMemory
    }
}

/// The endpoint that `H:P` names.
fn endpoint_of(text: &str) -> Option<Endpoint>
    ensures ok { IfSome result (λ e. text.now ≡ endpoint_text e) }
    ensures bounds { IfSome result IsScriptEndpoint }
    ensures complete { (e : Endpoint) → IsScriptEndpoint e → text.now ≡ endpoint_text e → result ≡ Some e }
{
    let (host, port) = text.split_once(':')?;
    let host = parse_decimal(host, u64::from(u32::MAX))?;
    let port = parse_decimal(port, u64::from(u16::MAX))?;
    Some(Endpoint {
        host: u128::from(host),
        port: port as u16,
    })
}

/// A text has an upper-case letter; `hex::decode` takes those, and the grammar does not.
fn has_upper_case(text: &str) -> bool
    ensures { result ≡ list_any is_ascii_uppercase text.now }
{
    text.bytes().any(|byte| byte.is_ascii_uppercase())
}

/// The number of a connection.
fn connection_of(text: &str) -> Option<u32>
    ensures ok { IfSome result (λ c. text.now ≡ decimal c) }
    ensures bounds { IfSome result (λ c. c < 64) }
    ensures complete { (c : ℕ) → c < 64 → text.now ≡ decimal c → result ≡ Some c }
{
    let number = parse_decimal(text, LAST_CONNECTION)?;
    Some(number as u32)
}

/// The bytes that HEX writes, at most `most`: at least two lower-case digits, or `-` for none.
fn bytes_of(alloc: Global, text: &str, most: usize) -> Result<Option<Bytes>, NoMemory>
    requires { most ≤ 4096 }
    ensures ok { IfOk result (λ o. IfSome o (λ bytes. text.now ≡ hex_text bytes)) }
    ensures bounds { IfOk result (λ o.
        IfSome o (λ bytes. (length bytes ≤ most) × All (λ b. b < 256) bytes)) }
    ensures complete { (bytes : List ℕ) → length bytes ≤ most → All (λ b. b < 256) bytes
        → text.now ≡ hex_text bytes → IfOk result (λ o. o ≡ Some bytes) }
{
    if text == "-" {
        return Ok(Some(Bytes::new(alloc)));
    }
    if text.is_empty() || text.len() > 2 * most || has_upper_case(text) {
        return Ok(None);
    }
    match hex::decode(alloc, text) {
        Ok(bytes) => Ok(Some(Bytes::from_vec(bytes))),
        Err(fault) => match fault {
            FromHexError::OutOfMemory => Err(AllocError),
            _ => Ok(None),
        },
    }
}

/// The event at a moment that has no bytes.
fn event_alone(alloc: Global, moment: u64, what: What) -> EventWithBytes
    ensures { result ≡ record { event = record { moment = moment; what = what }; bytes = [] } }
{
    EventWithBytes {
        event: Event { moment, what },
        bytes: Bytes::new(alloc),
    }
}

/// The event that a connection was opened at a moment, from the field after `open`.
fn opened_at(alloc: Global, moment: u64, c: &str) -> Option<EventWithBytes>
    requires { moment ≤ LATEST_MOMENT }
    ensures { ReadsEvent moment (codes "open" ∷ c.now ∷ []) result }
{
    let c = connection_of(c)?;
    Some(event_alone(alloc, moment, What::Opened(c)))
}

/// The event that a connection has ended at a moment, from the field after `end`.
fn ended_at(alloc: Global, moment: u64, c: &str) -> Option<EventWithBytes>
    requires { moment ≤ LATEST_MOMENT }
    ensures { ReadsEvent moment (codes "end" ∷ c.now ∷ []) result }
{
    let c = connection_of(c)?;
    Some(event_alone(alloc, moment, What::Ended(c)))
}

/// The bytes that came on a connection at a moment, from the fields after `bytes`.
fn bytes_at(
    alloc: Global,
    moment: u64,
    c: &str,
    digits: &str,
) -> Result<Option<EventWithBytes>, NoMemory>
    requires { moment ≤ LATEST_MOMENT }
    ensures { IfOk result (ReadsEvent moment (codes "bytes" ∷ c.now ∷ digits.now ∷ [])) }
{
    let Some(c) = connection_of(c) else {
        return Ok(None);
    };
    let Some(bytes) = bytes_of(alloc, digits, LONGEST_PIECE)? else {
        return Ok(None);
    };
    if bytes.is_empty() {
        return Ok(None);
    }
    let what = What::Bytes(c, bytes.len());
    Ok(Some(EventWithBytes {
        event: Event { moment, what },
        bytes,
    }))
}

/// The datagram at a moment, from the fields after `data`.
fn datagram_at(
    alloc: Global,
    moment: u64,
    from: &str,
    digits: &str,
) -> Result<Option<EventWithBytes>, NoMemory>
    requires { moment ≤ LATEST_MOMENT }
    ensures { IfOk result (ReadsEvent moment (codes "data" ∷ from.now ∷ digits.now ∷ [])) }
{
    let Some(from) = endpoint_of(from) else {
        return Ok(None);
    };
    let Some(bytes) = bytes_of(alloc, digits, LONGEST_DATAGRAM)? else {
        return Ok(None);
    };
    let what = What::Datagram(from, bytes.len());
    Ok(Some(EventWithBytes {
        event: Event { moment, what },
        bytes,
    }))
}

/// The event at a moment, from the fields after it: a pattern for each kind of line.
fn event_at(alloc: Global, moment: u64, fields: &[&str]) -> Result<Option<EventWithBytes>, NoMemory>
    requires { moment ≤ LATEST_MOMENT }
    ensures { IfOk result (ReadsEvent moment (map (λ field. field.now) fields.now)) }
{
    match *fields {
        ["open", c] => Ok(opened_at(alloc, moment, c)),
        ["bytes", c, digits] => bytes_at(alloc, moment, c, digits),
        ["end", c] => Ok(ended_at(alloc, moment, c)),
        ["data", from, digits] => datagram_at(alloc, moment, from, digits),
        ["tick"] => Ok(Some(event_alone(alloc, moment, What::Tick))),
        ["stop"] => Ok(Some(event_alone(alloc, moment, What::Stop))),
        _ => Ok(None),
    }
}

/// The fields of a line; none where there are more than any line has.
fn fields_of(line: &str) -> Option<ArrayVec<&str, MOST_FIELDS>>
    ensures ok { IfSome result (λ fields. line.now ≡ fields_text (map (λ field. field.now) fields.items)) }
    ensures complete { (fields : List (List ℕ)) → AreFields fields → length fields ≤ MOST_FIELDS
        → line.now ≡ fields_text fields
        → IsSomeAnd result (λ cut. map (λ field. field.now) cut.items ≡ fields) }
{
    let mut fields = ArrayVec::new();
    match fields.extend(line.split(' ')) {
        Ok(()) => Some(fields),
        Err(_full) => None,
    }
}

/// The event of a line, which is given without its line feed.
fn event_of(alloc: Global, line: &[u8]) -> Result<Option<EventWithBytes>, NoMemory>
    ensures ok { IfOk result (λ o. IfSome o (λ e. line.now ++ codes "\n" ≡ line_text e)) }
    ensures bounds { IfOk result (λ o. IfSome o IsScriptEvent) }
    ensures complete { (e : EventWithBytes) → IsScriptEvent e → line.now ++ codes "\n" ≡ line_text e
        → IfOk result (λ o. o ≡ Some e) }
{
    let Ok(text) = str::from_utf8(line) else {
        return Ok(None);
    };
    let Some(fields) = fields_of(text) else {
        return Ok(None);
    };
    let Some((moment, what)) = fields.split_first() else {
        return Ok(None);
    };
    let Some(moment) = parse_decimal(moment, LATEST_MOMENT) else {
        return Ok(None);
    };
    event_at(alloc, moment, what)
}

/// The first line, without its line feed, and the bytes after that.
fn first_line(bytes: &[u8]) -> Option<(&[u8], &[u8])>
    ensures { MatchOption result (All (λ b. b ≢ LINE_FEED) bytes.now)
        (λ r. (bytes.now ≡ r.0.now ++ LINE_FEED ∷ r.1.now) × All (λ b. b ≢ LINE_FEED) r.0.now) }
{
    let place = bytes.iter().position(|byte| *byte == LINE_FEED)?;
    Some((&bytes[..place], &bytes[place + 1..]))
}

/// One of these events is the end of the run, which none follows.
fn ends_run(events: &Events) -> bool
    requires { StopsAtEnd events.now }
    ensures { result ≡ has_stop events.now }
{
    match events.len().checked_sub(1) {
        Some(last) => matches!(events.at(last).event.what, What::Stop),
        None => false,
    }
}

/// The events of a script. Contracts see the list of them.
#[derive(Drop)]
pub struct Script {
    events: Events,
}

impl Model for Script {
    ghost use Rattle.std.specs.Prelude.{List};
    ghost use Rattle.servient_outside.specs.declared.net.EventWithBytes.{EventWithBytes};

    ghost Value = { List EventWithBytes };

    ghost view = { λ s. s.events };
}

impl Script {
    /// Reads a script of at most 16 MiB. Nothing after the first line that is not in the grammar is read.
    pub fn read(alloc: Global, bytes: &[u8]) -> Result<Script, ScriptFault>
        requires { length bytes.now ≤ longest_script }
        ensures ok { IfOk result (λ s. IsScript bytes.now s) }
        ensures complete { (events : List EventWithBytes) → IsScript bytes.now events
            → MatchResult result (λ s. s ≡ events) (λ e. e ≡ ScriptFault.NoMemory) }
        ensures fault { (n : ℕ) → result ≡ Err (ScriptFault.Line n) → IsFirstBadLine bytes.now n }
    {
        let mut events = Events::new(alloc);
        let mut rest = bytes;
        'lines: while !rest.is_empty() {
            let number = events.len() as u32 + 1;
            if ends_run(&events) {
                return Err(ScriptFault::Line(number));
            }
            let Some((line, more)) = first_line(rest) else {
                return Err(ScriptFault::Line(number));
            };
            let Some(event) = event_of(alloc, line)? else {
                return Err(ScriptFault::Line(number));
            };
            events.push(event)?;
            rest = more;
        }
        Ok(Script { events })
    }

    /// The events, in the order of the lines.
    pub fn into_events(self) -> Events
        ensures { result ≡ self }
    {
        let Script { events } = self;
        events
    }
}
