//! An event that comes about when the value in a file changes, or when the file comes late.

ghost use Rattle.std.specs.Prelude.{◌≡◌, Ok, IfOk, OnErr};
ghost use Rattle.std.specs.Option.{unwrap_or};
ghost use Rattle.wot_terms.specs.declared.kind.Kind.TheVariants as kind;
ghost use Rattle.thing_handler.specs.Handler.{AnswersCall, fresh_handler};
ghost use Rattle.file_devices.specs.Devices.{EventLooks, EventPolls, FiresIfOther, still_found};
ghost use Rattle.file_devices.specs.Once.{ReadsAtMostOnce, Tells};
ghost use Rattle.file_devices.specs.Seen.{event_seen};

use crate::device::Device;
use crate::{DeviceFiles, FileFault, Notation};
use servient_base::NoMemory;
use std::alloc::Global;
use thing_handler::{Answer, CallKind, Handler, Kind, NOT_ITS_KIND, Turn};
use wot_json::{Text, Tree, copy, is_equal};

/// An event that comes about at a Poll that finds another value in a file than the last one that found a value, or the
/// first value in a file that a Poll found absent.
#[derive(Drop)]
pub struct FileEvent<D: DeviceFiles> {
    device: Device<D>,
    last: EventState,
}

/// What the polls of an event have found so far.
#[derive(Drop)]
pub enum EventState {
    /// No value, and no poll found that the file is absent.
    Nothing,
    /// No value, and a poll found that the file is absent.
    NoFile,
    /// This value was found last.
    LastValue(Tree),
}

/// The outcome of a Poll.
#[derive(Drop)]
struct Polled {
    answer: Answer,
    /// What the polls have found then, where that changed.
    found: Option<EventState>,
}

impl<D: DeviceFiles> FileEvent<D> {
    /// The event of the file of this name, which wasn't polled yet.
    pub fn new(alloc: Global, files: D, name: Text, notation: Notation) -> Self
        ensures seen { event_seen result ≡ fresh_handler kind.Event }
        ensures files { result.device.files ≡ files }
        ensures name { result.device.name ≡ name }
        ensures notation { result.device.notation ≡ notation }
        ensures last { result.last ≡ EventState.Nothing }
    {
        FileEvent {
            device: Device::new(alloc, files, name, notation),
            last: EventState::Nothing,
        }
    }

    /// The files among which its file is.
    pub fn files(&self) -> &D
        ensures { result.now ≡ self.now.device.files }
    {
        &self.device.files
    }

    /// The outcome of a Poll.
    fn poll(&mut self, alloc: Global) -> Result<Polled, NoMemory>
        ensures looks { IfOk result (λ polled. EventLooks (D.seen self.old.device.files) (D.seen self.new.device.files)
            self.old.device.name self.old.device.notation self.old.last (unwrap_or polled.found self.old.last) polled.answer) }
        ensures held { (D.seen self.new.device.files).held ≡ (D.seen self.old.device.files).held }
        ensures calls { Tells (ReadsAtMostOnce self.old.device.name) (D.seen self.old.device.files) (D.seen self.new.device.files) }
        ensures name { self.new.device.name ≡ self.old.device.name }
        ensures notation { self.new.device.notation ≡ self.old.device.notation }
        ensures log { self.new.device.log ≡ self.old.device.log }
        ensures last { self.new.last ≡ self.old.last }
    {
        let found = self.device.value(alloc)?;
        judge_found(alloc, &self.last, found)
    }

    /// The answer to a Poll, whose turn is kept. What it found is remembered, where its turn was kept.
    fn answer_poll(
        &mut self,
        alloc: Global,
        number: u64,
        what: &CallKind,
    ) -> Result<Answer, NoMemory>
        ensures turn { AnswersCall (event_seen self.old) (event_seen self.new) number what.now result }
        ensures looks { IfOk result (EventLooks (D.seen self.old.device.files) (D.seen self.new.device.files)
            self.old.device.name self.old.device.notation self.old.last self.new.last) }
        ensures unchanged { OnErr result (self.new.last ≡ self.old.last) }
        ensures held { (D.seen self.new.device.files).held ≡ (D.seen self.old.device.files).held }
        ensures calls { Tells (ReadsAtMostOnce self.old.device.name) (D.seen self.old.device.files) (D.seen self.new.device.files) }
        ensures name { self.new.device.name ≡ self.old.device.name }
        ensures notation { self.new.device.notation ≡ self.old.device.notation }
    {
        let polled = match self.poll(alloc) {
            Ok(polled) => polled,
            Err(error) => return self.device.log.keep(alloc, number, what, Err(error)),
        };
        let answer = self
            .device
            .log
            .keep(alloc, number, what, Ok(polled.answer))?;
        keep_found(&mut self.last, polled.found);
        Ok(answer)
    }
}

/// Keeps what the polls have found then, where that changed.
fn keep_found(last: &mut EventState, found: Option<EventState>)
    ensures { last.new ≡ unwrap_or found last.old }
{
    if let Some(state) = found {
        *last = state;
    }
}

/// The outcome of a Poll that found this, where the polls before it found `last`.
fn judge_found(
    alloc: Global,
    last: &EventState,
    found: Result<Tree, FileFault>,
) -> Result<Polled, NoMemory>
    ensures { IfOk result (λ polled. EventPolls last.now (unwrap_or polled.found last.now) found polled.answer) }
{
    // A match and not `?`, since a fault of the file is an answer too.
    match found {
        Ok(value) => {
            let answer = answer_to_value(alloc, last, &value)?;
            let found = Some(EventState::LastValue(value));
            Ok(Polled { answer, found })
        }
        Err(fault) => {
            let answer = Answer::DeviceFault(fault.number());
            let found = changed_by(fault, last);
            Ok(Polled { answer, found })
        }
    }
}

/// The answer to a Poll that found this value, where the polls before it found `last`.
fn answer_to_value(alloc: Global, last: &EventState, value: &Tree) -> Result<Answer, NoMemory>
    ensures { IfOk result (EventPolls last.now (EventState.LastValue value.now) (Ok value.now)) }
{
    match last {
        EventState::Nothing => Ok(Answer::Quiet),
        EventState::NoFile => Ok(Answer::Fired(copy(alloc, value)?)),
        EventState::LastValue(before) => fired_if_other(alloc, before, value),
    }
}

/// The answer to a Poll that found this value, where the last one was `before`.
fn fired_if_other(alloc: Global, before: &Tree, value: &Tree) -> Result<Answer, NoMemory>
    ensures { IfOk result (FiresIfOther before.now value.now) }
{
    if is_equal(before, value) {
        return Ok(Answer::Quiet);
    }
    Ok(Answer::Fired(copy(alloc, value)?))
}

/// What the polls have found when one more had this fault, where that changed.
fn changed_by(fault: FileFault, last: &EventState) -> Option<EventState>
    ensures { unwrap_or result last.now ≡ still_found fault last.now }
{
    match fault {
        FileFault::Absent => match last {
            EventState::Nothing => Some(EventState::NoFile),
            EventState::NoFile => None,
            EventState::LastValue(_) => None,
        },
        FileFault::Failed | FileFault::TooLong | FileFault::NoValue | FileFault::NoText => None,
    }
}

impl<D: DeviceFiles> Handler for FileEvent<D> {
    ghost use Rattle.std.specs.Prelude.{◌≡◌, IfOk, OnErr};
    ghost use Rattle.thing_handler.specs.Handler.{AnswersCall, forgotten};
    ghost use Rattle.file_devices.specs.Devices.{EventAnswers};
    ghost use Rattle.file_devices.specs.Once.{EventCalls, Tells};
    ghost use Rattle.file_devices.specs.Seen.{event_seen};

    ghost seen = { event_seen };

    fn kind(&self) -> Kind {
        Kind::Event
    }

    #[tactic(auto, using(crate::proofs::OnceLaws::event_refused))]
    fn call(&mut self, alloc: Global, number: u64, what: &CallKind) -> Result<Answer, NoMemory>
        ensures turn { AnswersCall (event_seen self.old) (event_seen self.new) number what.now result }
        ensures answer { IfOk result (EventAnswers (D.seen self.old.device.files) (D.seen self.new.device.files)
            self.old.device.name self.old.device.notation self.old.last self.new.last what.now) }
        ensures unchanged { OnErr result (self.new.last ≡ self.old.last) }
        ensures unwritten { OnErr result ((D.seen self.new.device.files).held ≡ (D.seen self.old.device.files).held) }
        ensures calls { Tells (EventCalls self.old.device.name what.now) (D.seen self.old.device.files) (D.seen self.new.device.files) }
        ensures name { self.new.device.name ≡ self.old.device.name }
        ensures notation { self.new.device.notation ≡ self.old.device.notation }
    {
        match what {
            CallKind::Poll => self.answer_poll(alloc, number, what),
            _ => {
                let refused = Ok(Answer::Refused(NOT_ITS_KIND));
                self.device.log.keep(alloc, number, what, refused)
            }
        }
    }

    fn turns(&self) -> &[Turn] {
        self.device.log.turns.as_slice()
    }

    fn forget(&mut self)
        ensures seen { event_seen self.new ≡ forgotten (event_seen self.old) }
        ensures files { self.new.device.files ≡ self.old.device.files }
        ensures name { self.new.device.name ≡ self.old.device.name }
        ensures notation { self.new.device.notation ≡ self.old.device.notation }
        ensures last { self.new.last ≡ self.old.last }
    {
        self.device.log.forget();
    }
}
