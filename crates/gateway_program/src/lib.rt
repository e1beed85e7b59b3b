//! The program `file_gateway` below `main`: the servient with devices behind files. Its first word names a list of
//! devices (docs/DEVICES.md), and the words after it are those of `servient`, as are the statuses.
//!
//! It is a library so that each stored run is a program of this one call.
#![tactic(auto)]

mod device_files;
mod devices;
mod handlers;

use devices::read_devices;
use file_devices::DeviceEntries;
use handlers::handlers_of;
use servient_base::NoMemory;
use servient_cli::{report, servient_main};
use servient_edge::{FilesReal, MioNet, OutReal, SystemReal};
use servient_program::{after_first, out_of_memory, process_words};
use std::io;
use std::process::ExitCode;
use thing_handler::{Handler, Rack};
use wot_json::Text;

/// Does the command of the words after the program's name, and gives the exit status.
pub fn run(rt: &HostRuntime) -> ExitCode {
    match run_words(rt) {
        Ok(status) => ExitCode::from(status),
        Err(_) => out_of_memory(rt),
    }
}

/// Does the command of the words. Without any they are no command line of the servient either.
fn run_words(rt: &HostRuntime) -> Result<u8, NoMemory> {
    let words = process_words(rt)?;
    match after_first(words.as_slice()) {
        [] => run_command(rt, &DeviceEntries::new(rt.alloc()), &[]),
        [devices, command @ ..] => run_devices(rt, devices, command),
    }
}

/// Reads the list of devices of this name, and does the command of the words after it.
fn run_devices(rt: &HostRuntime, name: &Text, words: &[Text]) -> Result<u8, NoMemory> {
    let mut files = FilesReal::new(rt.clone()?);
    match read_devices(rt.alloc(), name.as_str(), &mut files) {
        Ok(entries) => run_command(rt, &entries, words),
        Err(ended) => {
            let mut out = OutReal::new(io::writer(rt));
            Ok(report(&mut out, &Err(ended)))
        }
    }
}

/// Does the command of words of the servient, with these devices.
fn run_command(rt: &HostRuntime, entries: &DeviceEntries, words: &[Text]) -> Result<u8, NoMemory> {
    let alloc = rt.alloc();
    let mut list: Vec<Box<dyn Handler>> = Vec::new(alloc);
    let handlers = handlers_of(rt, entries)?;
    for handler in handlers {
        list.push(Box::new(alloc, handler)?)?;
    }
    let mut rack = Rack::new(alloc, list);
    let mut files = FilesReal::new(rt.clone()?);
    let mut net = MioNet::new(SystemReal::new(rt.clone()?));
    let mut out = OutReal::new(io::writer(rt));
    let status = servient_main(alloc, words, &mut files, &mut net, &mut rack, &mut out);
    net.finish();
    Ok(status)
}
