//! Judging whether a request to the directory is refused.

ghost use Rattle.std.specs.Prelude.{◌≡◌, [], IfOk, IfErr};
ghost use Rattle.thing_ops.specs.Requests.{request_seen};
ghost use Rattle.thing_site.specs.Refusals.{no_inputs};
ghost use Rattle.thing_site.specs.HandedIn.{HasNoInputs};
ghost use Rattle.directory_requests.specs.Asked.{inputs_of};
ghost use Rattle.directory_requests.specs.Judged.{IsAsked, IsTask, IsJudged, IsRefusedOrMemory};

use crate::act::{DirectoryAct, act_at, is_of_directory};
use std::alloc::Global;
use thing_ops::{Outcome, Request, route};
use thing_site::{judge_formats, value_in};
use wot_json::Tree;

/// A task: an act, with the description or the patch that is handed in.
#[derive(Debug, Drop)]
pub enum DirectoryTask {
    Lists,
    Creates(Tree),
    Shows,
    Puts(Tree),
    Patches(Tree),
    Removes,
}

/// The task of a request, where nothing is against it; else the outcome of its first refusal, or out of memory.
pub fn judge(alloc: Global, request: &Request<'_>) -> Result<DirectoryTask, Outcome>
    ensures ok { IfOk result (λ task. IsJudged (request_seen request.now) task) }
    ensures fault { IfErr result (λ o. IsRefusedOrMemory (request_seen request.now) o) }
{
    let act = act_of(request)?;
    judge_formats(act.answer_format(), act.body_format(), request)?;
    task_of(alloc, act, request.body)
}

/// The act that a request asks for, or the outcome where there is none.
fn act_of(request: &Request<'_>) -> Result<DirectoryAct, Outcome>
    ensures { IsAsked (request_seen request.now) result }
{
    let route = route(&request.path);
    if !is_of_directory(route) {
        return Err(Outcome::NotFound);
    }
    match act_at(route, request.verb) {
        Ok(act) => Ok(act),
        Err(allow) => Err(Outcome::NotAllowed(allow)),
    }
}

/// The task of an act, with the value in this body.
fn task_of(alloc: Global, act: DirectoryAct, body: &[u8]) -> Result<DirectoryTask, Outcome>
    ensures ok { IfOk result (λ task. IsTask act body.now task) }
    ensures fault { IfErr result (λ o. HasNoInputs (inputs_of act body.now) o) }
{
    match act {
        DirectoryAct::Creates => Ok(DirectoryTask::Creates(value_in(alloc, body)?)),
        DirectoryAct::Puts => Ok(DirectoryTask::Puts(value_in(alloc, body)?)),
        DirectoryAct::Patches => Ok(DirectoryTask::Patches(value_in(alloc, body)?)),
        DirectoryAct::Lists => unless_body(DirectoryTask::Lists, body),
        DirectoryAct::Shows => unless_body(DirectoryTask::Shows, body),
        DirectoryAct::Removes => unless_body(DirectoryTask::Removes, body),
    }
}

/// This task, where no body is taken.
fn unless_body(task: DirectoryTask, body: &[u8]) -> Result<DirectoryTask, Outcome>
    ensures ok { IfOk result (λ t. (t ≡ task) × (body.now ≡ [])) }
    ensures fault { IfErr result (λ o. HasNoInputs (no_inputs body.now) o) }
{
    if body.is_empty() {
        Ok(task)
    } else {
        Err(Outcome::BadValue)
    }
}
