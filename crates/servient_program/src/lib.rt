//! The whole program below `main`: it makes the real files, the network over sockets, the output and the shipped rack,
//! and does the command of the program's words.
//!
//! It is a library so that each program crate is this one call: `servient`, and each stored run of it with words and an
//! exit status of its own.
#![tactic(auto)]

ghost use Rattle.std.specs.Prelude.{◌≡◌, drop};
ghost use Rattle.servient_trace.specs.Trace.{outside};
ghost use Rattle.command_stages.specs.Stages.{around};
ghost use Rattle.servient_cli.specs.Command.{Ends};

use servient_base::NoMemory;
use servient_cli::servient_main;
use servient_edge::{Files, FilesReal, MioNet, Net, Out, OutReal, Put, SystemReal};
use std::alloc::{AllocError, Global};
use std::io::ErrorKind;
use std::process::ExitCode;
use std::{env, io};
use thing_handler::{Handler, Handlers, Rack, SHIPPED_SLOTS, shipped_in};
use wot_json::Text;

/// Does the command of the words after the program's name, and gives the exit status. docs/REFERENCE.md has the table of
/// these.
pub fn run(rt: &HostRuntime) -> ExitCode {
    match run_words(rt) {
        Ok(status) => ExitCode::from(status),
        Err(_) => out_of_memory(rt),
    }
}

/// Makes the objects that the top call needs, and calls it.
fn run_words(rt: &HostRuntime) -> Result<u8, NoMemory> {
    let alloc = rt.alloc();
    let words = process_words(rt)?;
    let mut files = FilesReal::new(rt.clone()?);
    let mut net = MioNet::new(SystemReal::new(rt.clone()?));
    let mut list: Vec<Box<dyn Handler>> = Vec::new(alloc);
    for slot in 0..SHIPPED_SLOTS {
        list.push(Box::new(alloc, shipped_in(alloc, slot))?)?;
    }
    let mut rack = Rack::new(alloc, list);
    let mut out = OutReal::new(io::writer(rt));
    let words = words.as_slice();
    let status = run_process(alloc, words, &mut files, &mut net, &mut rack, &mut out);
    net.finish();
    Ok(status)
}

/// Does the command of the words of a process, of which the first is the program's own name, and gives the exit status.
pub fn run_process<F: Files, N: Net, R: Handlers, O: Out>(
    alloc: Global,
    words: &[Text],
    files: &mut F,
    net: &mut N,
    rack: &mut R,
    out: &mut O,
) -> u8
    ensures { Ends (drop 1 words.now)
        (around (F.seen files.old) (outside (N.seen net.old) (R.slots rack.old)))
        (around (F.seen files.new) (outside (N.seen net.new) (R.slots rack.new)))
        (O.seen out.old)
        (O.seen out.new) result }
{
    servient_main(alloc, after_first(words), files, net, rack, out)
}

/// The words after the first.
pub fn after_first(words: &[Text]) -> &[Text]
    ensures { result.now ≡ drop 1 words.now }
{
    match words {
        [] => &[],
        [_, rest @ ..] => rest,
    }
}

/// The words of this process, the program's name first. Where one of them isn't UTF-8 they are no command line, and no
/// word is handed on.
pub fn process_words(rt: &HostRuntime) -> Result<Vec<Text>, NoMemory> {
    let mut words = Vec::new(rt.alloc());
    match env::args(rt) {
        Ok(given) => {
            for word in given {
                words.push(Text::from_string(word))?;
            }
            Ok(words)
        }
        Err(error) => {
            if error.kind() == ErrorKind::OutOfMemory {
                Err(AllocError)
            } else {
                Ok(words)
            }
        }
    }
}

/// Says that it was out of memory to begin with.
pub fn out_of_memory(rt: &HostRuntime) -> ExitCode {
    let mut out = OutReal::new(io::writer(rt));
    match out.put(b"servient: memory\n") {
        Put::Done => ExitCode::from(9),
        Put::Failed => ExitCode::from(7),
    }
}
