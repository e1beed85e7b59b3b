//! The command of a case: its print, its acts on the network, and its status.

use crate::acts::put_acts;
use crate::case::Case;
use crate::crowded::Crowded;
use crate::scripts::LONGEST_SCRIPT;
use crate::spelling::put_printed;
use cases_values::Device;
use servient_cli::{Script, servient_main};
use servient_outside::{Calls, Events, FilesMemory, Held, Net, NetMemory, OutMemory};
use std::alloc::{AllocError, Global};
use std::fmt::Write;
use std::{mem, str};
use thing_handler::{Handler, Rack, SHIPPED_SLOTS, Scripted, shipped_in};
use wot_json::Text;

/// The words of a command, and its rack: devices, and the number of slots.
#[derive(Drop)]
struct Command<'a> {
    words: &'a [Text],
    devices: Vec<Device>,
    slots: usize,
}

/// The words of a command.
fn words_of(alloc: Global, words: &str) -> Result<Vec<Text>, AllocError> {
    let mut list = Vec::new(alloc);
    for word in words.split_whitespace() {
        list.push(Text::copy_of(alloc, word)?)?;
    }
    Ok(list)
}

/// The command of these words.
fn command_of<'a>(alloc: Global, case: &mut Case, words: &'a [Text]) -> Command<'a> {
    Command {
        words,
        devices: mem::replace(&mut case.devices, Vec::new(alloc)),
        slots: case.slots,
    }
}

/// The files of a case.
fn files_of(alloc: Global, case: &mut Case) -> Result<FilesMemory, AllocError> {
    case.close()?;
    let held = mem::replace(&mut case.held, Held::new(alloc));
    FilesMemory::new(
        alloc,
        held,
        mem::replace(&mut case.reads, Calls::new(alloc)),
    )
}

/// The output of a case.
fn out_of(alloc: Global, case: &mut Case) -> Result<OutMemory, AllocError> {
    let puts = mem::replace(&mut case.puts, Calls::new(alloc));
    OutMemory::new(alloc, case.room, puts)
}

/// The events of a script.
fn events_of(alloc: Global, lines: &str) -> Result<Events, AllocError> {
    if lines.len() > LONGEST_SCRIPT {
        return Err(AllocError);
    }
    match Script::read(alloc, lines.as_bytes()) {
        Ok(script) => Ok(script.into_events()),
        Err(_) => Err(AllocError),
    }
}

/// The network of a case.
fn network_of(alloc: Global, case: &mut Case) -> Result<NetMemory, AllocError> {
    let events = events_of(alloc, case.events.as_str())?;
    NetMemory::new(
        alloc,
        events,
        mem::replace(&mut case.nets, Calls::new(alloc)),
    )
}

/// The handler of a device.
fn scripted(alloc: Global, device: Device) -> Scripted {
    let Device { kind, answers } = device;
    Scripted::new(alloc, kind, answers)
}

/// Runs a command on its devices, and else the shipped ones: its status.
fn run<N: Net>(
    alloc: Global,
    command: Command<'_>,
    files: &mut FilesMemory,
    net: &mut N,
    out: &mut OutMemory,
) -> Result<u8, AllocError> {
    let Command {
        words,
        devices,
        slots,
    } = command;
    let mut list: Vec<Box<dyn Handler>> = Vec::new(alloc);
    for device in devices {
        list.push(Box::new(alloc, scripted(alloc, device))?)?;
    }
    for slot in list.len()..SHIPPED_SLOTS {
        if slot < slots {
            list.push(Box::new(alloc, shipped_in(alloc, slot))?)?;
        }
    }
    if list.len() > SHIPPED_SLOTS {
        return Err(AllocError);
    }
    let mut rack = Rack::new(alloc, list);
    Ok(servient_main(alloc, words, files, net, &mut rack, out))
}

/// Runs the command of a case, and writes its acts on the network: its status.
fn status_of(
    acts: &mut String,
    alloc: Global,
    case: &mut Case,
    words: &str,
    out: &mut OutMemory,
) -> Result<u8, AllocError> {
    let mut files = files_of(alloc, case)?;
    let words = words_of(alloc, words)?;
    let command = command_of(alloc, case, words.as_slice());
    if case.is_crowded {
        return run(alloc, command, &mut files, &mut Crowded, out);
    }
    let mut net = network_of(alloc, case)?;
    let status = run(alloc, command, &mut files, &mut net, out)?;
    put_acts(acts, net.acts(), case.hidden)?;
    Ok(status)
}

/// Writes the output of a command.
fn put_output(
    text: &mut String,
    alloc: Global,
    output: &[u8],
    is_in_words: bool,
) -> Result<(), AllocError> {
    for line in str::from_utf8(output).unwrap_or("no text").lines() {
        if is_in_words {
            put_printed(text, alloc, line)?;
        } else {
            text.push_str(line)?;
        }
        text.push_str("\n")?;
    }
    Ok(())
}

/// Runs the command of a case, and writes its outcome, the status in brackets.
///
/// # Errors
///
/// Out of memory alone.
pub fn put_shown(
    text: &mut String,
    alloc: Global,
    case: &mut Case,
    words: &str,
) -> Result<(), AllocError> {
    let mut out = out_of(alloc, case)?;
    let mut acts = String::new(alloc);
    let status = status_of(&mut acts, alloc, case, words, &mut out)?;
    put_output(text, alloc, out.written(), case.is_in_words)?;
    writeln!(text, "{acts}[{status}]")
}
