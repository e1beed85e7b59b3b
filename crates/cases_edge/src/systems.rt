//! The network over a system in memory: lines `answer ..` with the answers that the system plays (`answers.rt`); and the
//! steps of `network.rt`, `finish`, `asked` for what the system was asked for since the step before but for the time,
//! `count` for the number of these calls, and `left` for the number of answers that are still to be played.

use crate::answers::answers_of;
use crate::network::put_done;
use crate::records::put_asked;
use cases_notation::put_rows;
use servient_edge::MioNet;
use servient_system::{Asked, Call, SystemMemory};
use std::alloc::{AllocError, Global};
use std::fmt::Write;

/// A network over a system in memory.
#[derive(Drop)]
struct Scene {
    net: MioNet<SystemMemory>,
    // The number of calls of the system that were shown.
    shown: usize,
}

/// Writes the calls after the first n, but for the clock's.
fn put_calls(text: &mut String, calls: &[Asked]) -> Result<(), AllocError> {
    for asked in calls.iter() {
        if asked.call() != Call::Now {
            put_asked(text, asked)?;
            text.push_str("; ")?;
        }
    }
    text.push_str("no more")
}

impl Scene {
    /// The calls of the system that weren't shown yet.
    fn calls(&self) -> &[Asked] {
        match self.net.system().asked() {
            Some(calls) => calls.get(self.shown..).unwrap_or(&[]),
            None => &[],
        }
    }

    /// All calls so far were shown.
    fn note_shown(&mut self) {
        self.shown = self.shown.saturating_add(self.calls().len());
    }
}

/// Writes what the system was asked for since it was shown before.
fn put_shown(text: &mut String, scene: &mut Scene, word: &str) -> Result<(), AllocError> {
    match word {
        "asked" => put_calls(text, scene.calls())?,
        _ => write!(text, "{}", scene.calls().len())?,
    }
    scene.note_shown();
    Ok(())
}

/// Does a step, and writes what comes of it.
fn put_step(
    text: &mut String,
    alloc: Global,
    scene: &mut Scene,
    step: &str,
) -> Result<(), AllocError> {
    let (word, words) = step.split_once(' ').unwrap_or((step, ""));
    match word {
        "asked" | "count" => put_shown(text, scene, word),
        "left" => write!(text, "{}", scene.net.system().left()),
        "finish" => {
            scene.net.finish();
            text.push_str("done")
        }
        _ => put_done(text, alloc, &mut scene.net, word, words),
    }
}

pub fn put(text: &mut String, alloc: Global, history: &str) -> Result<(), AllocError> {
    let system = SystemMemory::new(alloc, answers_of(alloc, history)?);
    let mut scene = Scene {
        net: MioNet::new(system),
        shown: 0,
    };
    put_rows(
        text,
        history,
        |text, step| put_step(text, alloc, &mut scene, step),
    )
}
