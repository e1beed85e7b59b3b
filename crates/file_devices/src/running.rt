//! An action that runs on after it was invoked, behind files.

ghost use Rattle.std.specs.Prelude.{◌≡◌, None, IfOk, OnErr};
ghost use Rattle.wot_terms.specs.declared.kind.Kind.TheVariants as kind;
ghost use Rattle.thing_handler.specs.Handler.{AnswersCall, fresh_handler};
ghost use Rattle.file_devices.specs.Devices.{call_text};
ghost use Rattle.file_devices.specs.Once.{QueryCalls, ReadsAtMostOnce, Tells};
ghost use Rattle.file_devices.specs.Running.{CancelsLast, RunCancels, RunInvokes, RunQueries, StatusAsked, asked_of};
ghost use Rattle.file_devices.specs.Seen.{running_seen};

use crate::action::NO_INVOCATION;
use crate::content::{answer_to, content_in};
use crate::starting::{begin, last_after, ready};
use crate::status::status_answer;
use crate::stopping::{stop, stop_texts};
use crate::{DeviceFiles, RunningDevice};
use servient_base::NoMemory;
use std::alloc::Global;
use thing_handler::{Answer, CallKind, Handler, Kind, NOT_ITS_KIND, Turn, TurnLog};

/// An action that runs on: an Invoke gives its file the input, and its status says then how the invocation stands.
#[derive(Drop)]
pub struct RunningAction<D: DeviceFiles> {
    files: D,
    device: RunningDevice,
    /// The id of the invocation that was begun last.
    last: Option<u32>,
    log: TurnLog,
}

/// The invocation that a Query or a Cancel is about.
#[derive(Clone, Copy, Debug, PartialEq, Eq)]
enum Asked {
    /// None, since none was begun yet.
    NoneBegun,
    /// The one that was begun last.
    Last,
    /// An earlier one, which is over.
    Earlier,
}

impl<D: DeviceFiles> RunningAction<D> {
    /// The action of this device, of which no invocation was begun.
    pub fn new(alloc: Global, files: D, device: RunningDevice) -> Self
        ensures seen { running_seen result ≡ fresh_handler kind.Action }
        ensures files { result.files ≡ files }
        ensures device { result.device ≡ device }
        ensures last { result.last ≡ None }
    {
        RunningAction {
            files,
            device,
            last: None,
            log: TurnLog::new(alloc),
        }
    }

    /// The files among which its files are.
    pub fn files(&self) -> &D
        ensures { result.now ≡ self.now.files }
    {
        &self.files
    }

    /// An Invoke of this id. All memory is taken before a file is written.
    fn invoke(
        &mut self,
        alloc: Global,
        number: u64,
        what: &CallKind,
        id: u32,
    ) -> Result<Answer, NoMemory>
        ensures turn { AnswersCall (running_seen self.old) (running_seen self.new) number what.now result }
        ensures answer { IfOk result (RunInvokes (D.seen self.old.files) (D.seen self.new.files) self.old.device id
            (call_text self.old.device.notation what.now) self.old.last self.new.last) }
        ensures unchanged { OnErr result (self.new.last ≡ self.old.last) }
        ensures unwritten { OnErr result ((D.seen self.new.files).held ≡ (D.seen self.old.files).held) }
        ensures missed { OnErr result (Tells (ReadsAtMostOnce self.old.device.status) (D.seen self.old.files) (D.seen self.new.files)) }
        ensures device { self.new.device ≡ self.old.device }
    {
        let status = match content_in(&mut self.files, alloc, self.device.status.as_str()) {
            Ok(status) => status,
            Err(error) => return self.log.keep(alloc, number, what, Err(error)),
        };
        let texts = match ready(alloc, self.device.notation, &status, what) {
            Ok(Ok(texts)) => texts,
            Ok(Err(answer)) => return self.log.keep(alloc, number, what, Ok(answer)),
            Err(error) => return self.log.keep(alloc, number, what, Err(error)),
        };
        let prepared = self.log.prepare(alloc, number, what)?;
        let begun = begin(&mut self.files, &self.device, alloc, texts);
        self.last = last_after(self.last, id, begun);
        self.log.finish(prepared, answer_to(begun, Answer::Started));
        Ok(answer_to(begun, Answer::Started))
    }

    /// The answer to a Query of this id.
    fn query(&mut self, alloc: Global, id: u32) -> Result<Answer, NoMemory>
        ensures answer { IfOk result (RunQueries (D.seen self.old.files) (D.seen self.new.files) self.old.device
            (asked_of self.old.last id)) }
        ensures held { (D.seen self.new.files).held ≡ (D.seen self.old.files).held }
        ensures calls { Tells (QueryCalls self.old.device (asked_of self.old.last id)) (D.seen self.old.files) (D.seen self.new.files) }
        ensures device { self.new.device ≡ self.old.device }
        ensures last { self.new.last ≡ self.old.last }
        ensures log { self.new.log ≡ self.old.log }
    {
        match asked_about(self.last, id) {
            Asked::NoneBegun => Ok(Answer::Refused(NO_INVOCATION)),
            Asked::Earlier => Ok(Answer::Finished(None)),
            Asked::Last => ask_status(&mut self.files, &self.device, alloc),
        }
    }

    /// A Cancel of this id.
    fn cancel(
        &mut self,
        alloc: Global,
        number: u64,
        what: &CallKind,
        id: u32,
    ) -> Result<Answer, NoMemory>
        ensures turn { AnswersCall (running_seen self.old) (running_seen self.new) number what.now result }
        ensures answer { IfOk result (RunCancels (D.seen self.old.files) (D.seen self.new.files) self.old.device
            (asked_of self.old.last id) id) }
        ensures missed { OnErr result (self.new.files ≡ self.old.files) }
        ensures device { self.new.device ≡ self.old.device }
        ensures last { self.new.last ≡ self.old.last }
    {
        let answer = match asked_about(self.last, id) {
            Asked::NoneBegun => Answer::Refused(NO_INVOCATION),
            Asked::Earlier => Answer::Cancelled,
            Asked::Last => return self.cancel_last(alloc, number, what, id),
        };
        self.log.keep(alloc, number, what, Ok(answer))
    }

    /// A Cancel of the last invocation. All memory is taken before a file is written.
    fn cancel_last(
        &mut self,
        alloc: Global,
        number: u64,
        what: &CallKind,
        id: u32,
    ) -> Result<Answer, NoMemory>
        ensures turn { AnswersCall (running_seen self.old) (running_seen self.new) number what.now result }
        ensures answer { IfOk result (CancelsLast (D.seen self.old.files) (D.seen self.new.files) self.old.device.cancel
            self.old.device.status id) }
        ensures missed { OnErr result (self.new.files ≡ self.old.files) }
        ensures device { self.new.device ≡ self.old.device }
        ensures last { self.new.last ≡ self.old.last }
    {
        let Some(cancel) = &self.device.cancel else {
            let refused = Ok(Answer::Refused(NO_INVOCATION));
            return self.log.keep(alloc, number, what, refused);
        };
        let texts = match stop_texts(alloc, id) {
            Ok(texts) => texts,
            Err(error) => return self.log.keep(alloc, number, what, Err(error)),
        };
        let prepared = self.log.prepare(alloc, number, what)?;
        let stopped = stop(
            &mut self.files,
            cancel.as_str(),
            self.device.status.as_str(),
            texts,
        );
        self.log
            .finish(prepared, answer_to(stopped, Answer::Cancelled));
        Ok(answer_to(stopped, Answer::Cancelled))
    }
}

/// The invocation that a Query or a Cancel of this id is about. Each id but the last one's is taken for an earlier one's:
/// a handler is asked only of invocations that it began, and their ids rise.
fn asked_about(last: Option<u32>, id: u32) -> Asked
    ensures { result ≡ asked_of last id }
{
    match last {
        None => Asked::NoneBegun,
        Some(last) => {
            if last == id {
                Asked::Last
            } else {
                Asked::Earlier
            }
        }
    }
}

/// The answer to a Query of the last invocation.
fn ask_status<D: DeviceFiles>(
    files: &mut D,
    device: &RunningDevice,
    alloc: Global,
) -> Result<Answer, NoMemory>
    ensures answer { IfOk result (StatusAsked (D.seen files.old) (D.seen files.new) device.now) }
    ensures held { (D.seen files.new).held ≡ (D.seen files.old).held }
    ensures calls { Tells (ReadsAtMostOnce device.now.status) (D.seen files.old) (D.seen files.new) }
{
    let status = content_in(files, alloc, device.status.as_str())?;
    status_answer(alloc, device.notation, status)
}

impl<D: DeviceFiles> Handler for RunningAction<D> {
    ghost use Rattle.std.specs.Prelude.{◌≡◌, IfOk, OnErr};
    ghost use Rattle.thing_handler.specs.Handler.{AnswersCall, forgotten};
    ghost use Rattle.file_devices.specs.Once.{RunningCalls, Tells};
    ghost use Rattle.file_devices.specs.Running.{RunningAnswers};
    ghost use Rattle.file_devices.specs.Seen.{running_seen};

    ghost seen = { running_seen };

    fn kind(&self) -> Kind {
        Kind::Action
    }

    fn call(&mut self, alloc: Global, number: u64, what: &CallKind) -> Result<Answer, NoMemory>
        ensures turn { AnswersCall (running_seen self.old) (running_seen self.new) number what.now result }
        ensures answer { IfOk result (RunningAnswers (D.seen self.old.files) (D.seen self.new.files) self.old.device
            self.old.last self.new.last what.now) }
        ensures unchanged { OnErr result (self.new.last ≡ self.old.last) }
        ensures unwritten { OnErr result ((D.seen self.new.files).held ≡ (D.seen self.old.files).held) }
        ensures calls { Tells (RunningCalls self.old.device self.old.last what.now result)
            (D.seen self.old.files) (D.seen self.new.files) }
        ensures device { self.new.device ≡ self.old.device }
    {
        match what {
            CallKind::Invoke(id, _) => self.invoke(alloc, number, what, *id),
            CallKind::Query(id) => {
                let answer = self.query(alloc, *id);
                self.log.keep(alloc, number, what, answer)
            }
            CallKind::Cancel(id) => self.cancel(alloc, number, what, *id),
            CallKind::Read | CallKind::Write(_) | CallKind::Poll => {
                let refused = Ok(Answer::Refused(NOT_ITS_KIND));
                self.log.keep(alloc, number, what, refused)
            }
        }
    }

    fn turns(&self) -> &[Turn] {
        self.log.turns.as_slice()
    }

    fn forget(&mut self)
        ensures seen { running_seen self.new ≡ forgotten (running_seen self.old) }
        ensures files { self.new.files ≡ self.old.files }
        ensures device { self.new.device ≡ self.old.device }
        ensures last { self.new.last ≡ self.old.last }
    {
        self.log.forget();
    }
}
