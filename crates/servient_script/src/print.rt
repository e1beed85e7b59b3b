//! The lines that a replay prints: one for each act and each turn. Each function puts its part into a text that is
//! lent, so that it doesn't own the print where it leaves by `?`.

ghost use Rattle.std.specs.Prelude.{◌≡◌, ◌++◌, codes, map, OnOk};
ghost use Rattle.std.specs.List.{flat_map};
ghost use Rattle.servient_outside.specs.declared.net.Act.TheVariants as act;
ghost use Rattle.servient_script.specs.Script.{endpoint_text, hex_text};
ghost use Rattle.servient_script.specs.Print.{act_line, answer_text, call_text, in_slot, text_if_any, turn_line};
ghost use Rattle.wot_json.specs.Json.{json_text};

use coap_msg::Endpoint;
use itoa::{Buffer, Integer};
use servient_outside::Act;
use std::alloc::Global;
use thing_handler::{Answer, CallKind, Turn};
use wot_json::{Bytes, NoMemory, Tree, text_of};

/// Puts the lines of acts at the end, in order.
pub fn put_acts(alloc: Global, out: &mut Bytes, acts: &[Act]) -> Result<(), NoMemory>
    ensures { OnOk result (out.new ≡ out.old ++ flat_map act_line acts.now) }
{
    for act in acts {
        put_act(alloc, out, act)?;
    }
    Ok(())
}

/// Puts the line of an act at the end, if it has one.
fn put_act(alloc: Global, out: &mut Bytes, act: &Act) -> Result<(), NoMemory>
    ensures { OnOk result (out.new ≡ out.old ++ act_line act.now) }
{
    match act {
        Act::Sent(c, bytes) => put_sent(alloc, out, *c, bytes.as_slice()),
        Act::Closed(c) => {
            put_with_number(out, b"close ", *c)?;
            out.extend(b"\n")
        }
        Act::Datagram(to, bytes) => put_datagram(alloc, out, *to, bytes.as_slice()),
        Act::Listened(_) | Act::Dialled(_, _, _) | Act::Looked(_, _, _) => Ok(()),
    }
}

/// Puts the line of bytes that were sent on a connection at the end.
fn put_sent(alloc: Global, out: &mut Bytes, c: u32, bytes: &[u8]) -> Result<(), NoMemory>
    ensures { OnOk result (out.new ≡ out.old ++ act_line (act.Sent c bytes.now)) }
{
    put_with_number(out, b"send ", c)?;
    out.extend(b" ")?;
    put_hex(alloc, out, bytes)?;
    out.extend(b"\n")
}

/// Puts the line of a datagram at the end.
fn put_datagram(alloc: Global, out: &mut Bytes, to: Endpoint, bytes: &[u8]) -> Result<(), NoMemory>
    ensures { OnOk result (out.new ≡ out.old ++ act_line (act.Datagram to bytes.now)) }
{
    out.extend(b"data ")?;
    put_number(out, to.host)?;
    out.extend(b":")?;
    put_number(out, to.port)?;
    out.extend(b" ")?;
    put_hex(alloc, out, bytes)?;
    out.extend(b"\n")
}

/// Puts the line of a turn of a slot at the end.
pub fn put_turn(alloc: Global, out: &mut Bytes, slot: usize, turn: &Turn) -> Result<(), NoMemory>
    ensures { OnOk result (out.new ≡ out.old ++ turn_line (in_slot slot turn.now)) }
{
    out.extend(b"turn ")?;
    put_number(out, turn.number)?;
    out.extend(b" ")?;
    put_number(out, slot)?;
    out.extend(b" ")?;
    put_call(alloc, out, &turn.what)?;
    out.extend(b" = ")?;
    put_answer(alloc, out, &turn.answer)?;
    out.extend(b"\n")
}

/// Puts the call of a handler at the end.
fn put_call(alloc: Global, out: &mut Bytes, what: &CallKind) -> Result<(), NoMemory>
    ensures { OnOk result (out.new ≡ out.old ++ call_text what.now) }
{
    match what {
        CallKind::Read => out.extend(b"read"),
        CallKind::Write(tree) => put_with_tree(alloc, out, b"write ", tree),
        CallKind::Invoke(id, input) => {
            put_with_number(out, b"invoke ", *id)?;
            out.extend(b" ")?;
            put_if_any(alloc, out, input)
        }
        CallKind::Query(id) => put_with_number(out, b"query ", *id),
        CallKind::Cancel(id) => put_with_number(out, b"cancel ", *id),
        CallKind::Poll => out.extend(b"poll"),
    }
}

/// Puts the answer of a handler at the end.
fn put_answer(alloc: Global, out: &mut Bytes, answer: &Answer) -> Result<(), NoMemory>
    ensures { OnOk result (out.new ≡ out.old ++ answer_text answer.now) }
{
    match answer {
        Answer::Value(tree) => put_with_tree(alloc, out, b"value ", tree),
        Answer::Done => out.extend(b"done"),
        Answer::Started => out.extend(b"started"),
        Answer::Running => out.extend(b"running"),
        Answer::Finished(output) => {
            out.extend(b"finished ")?;
            put_if_any(alloc, out, output)
        }
        Answer::Cancelled => out.extend(b"cancelled"),
        Answer::Quiet => out.extend(b"quiet"),
        Answer::Fired(tree) => put_with_tree(alloc, out, b"fired ", tree),
        Answer::Refused(number) => put_with_number(out, b"refused ", *number),
        Answer::DeviceFault(number) => put_with_number(out, b"fault ", *number),
    }
}

/// Puts a word and the text of a value at the end.
fn put_with_tree(alloc: Global, out: &mut Bytes, word: &[u8], tree: &Tree) -> Result<(), NoMemory>
    ensures { OnOk result (out.new ≡ out.old ++ word.now ++ json_text tree.now) }
{
    let text = text_of(alloc, tree)?;
    out.extend(word)?;
    out.extend(text.as_slice())
}

/// Puts the text of a value at the end, or `-` where there is none.
fn put_if_any(alloc: Global, out: &mut Bytes, value: &Option<Tree>) -> Result<(), NoMemory>
    ensures { OnOk result (out.new ≡ out.old ++ text_if_any value.now) }
{
    match value {
        Some(tree) => put_with_tree(alloc, out, b"", tree),
        None => out.extend(b"-"),
    }
}

/// Puts a word and a number at the end.
fn put_with_number<I: Integer>(out: &mut Bytes, word: &[u8], number: I) -> Result<(), NoMemory>
    ensures { OnOk result (out.new ≡ out.old ++ word.now ++ I.text number) }
{
    out.extend(word)?;
    put_number(out, number)
}

/// Puts bytes at the end as lower-case hexadecimal digits, or `-` for none.
fn put_hex(alloc: Global, out: &mut Bytes, bytes: &[u8]) -> Result<(), NoMemory>
    ensures { OnOk result (out.new ≡ out.old ++ hex_text bytes.now) }
{
    if bytes.is_empty() {
        return out.extend(b"-");
    }
    let text = hex::encode(alloc, bytes)?;
    out.extend(text.as_bytes())
}

/// Puts a number at the end in decimal.
pub fn put_number<I: Integer>(out: &mut Bytes, number: I) -> Result<(), NoMemory>
    ensures { OnOk result (out.new ≡ out.old ++ I.text number) }
{
    let mut buffer = Buffer::new();
    out.extend(buffer.format(number).as_bytes())
}
