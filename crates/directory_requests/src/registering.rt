//! The effects of requests on a directory whose entries have times, at a moment. Each call of `Registry` takes away
//! first the entries that are over then; where none is made, `remove_expired` does.

ghost use Rattle.std.specs.Prelude.{◌≡◌, ◌≤◌, option_map};
ghost use Rattle.wot_json.specs.Meaning.{json_of};
ghost use Rattle.thing_ops.specs.Requests.{request_seen};
ghost use Rattle.wot_registry.specs.Times.{last_moment};
ghost use Rattle.wot_registry.specs.Registry.{standing, shown_under, shown_entries};
ghost use Rattle.directory_requests.specs.Window.{window_of as window_by};
ghost use Rattle.directory_requests.specs.Requests as spec;
ghost use Rattle.directory_requests.specs.Judged.{IsJudged, IsOrMemory, DoesTaskAt};

use crate::act::entry_id;
use crate::judging::DirectoryTask;
use crate::performing::outcome_of as outcome_of_fault;
use crate::window::window_of;
use std::alloc::Global;
use thing_ops::{Accept, Outcome, Request};
use wot_json::{Tree, text_of};
use wot_registry::{RegFault, Registry};

/// Performs the task of a request, at the moment `now`.
pub(crate) fn perform_task_at(
    alloc: Global,
    registry: &mut Registry,
    task: DirectoryTask,
    request: &Request<'_>,
    now: u64,
) -> Outcome
    requires judged { IsJudged (request_seen request.now) task }
    requires bound { now ≤ last_moment }
    ensures { DoesTaskAt task (request_seen request.now) now result (standing now registry.old) registry.new }
{
    match task {
        DirectoryTask::Lists => list(registry, request.query, now),
        DirectoryTask::Creates(description) => create(registry, description, now),
        DirectoryTask::Shows => show(
            alloc,
            registry,
            entry_id(&request.path),
            request.accept,
            now,
        ),
        DirectoryTask::Puts(description) => put(
            registry,
            entry_id(&request.path),
            description,
            now,
        ),
        DirectoryTask::Patches(merge) => patch(registry, entry_id(&request.path), &merge, now),
        DirectoryTask::Removes => remove(registry, entry_id(&request.path), now),
    }
}

/// The entries that a query asks for.
fn list(registry: &mut Registry, query: &[u8], now: u64) -> Outcome
    ensures answer { IsOrMemory (spec.listed_by (window_by query.now) (shown_entries (standing now registry.old))) result }
    ensures left { registry.new ≡ standing now registry.old }
{
    let window = match window_of(query) {
        Some(window) => window,
        None => {
            // The query is refused before any call of `Registry`, so that nothing else has taken these away.
            registry.remove_expired(now);
            return Outcome::BadValue;
        }
    };
    match registry.list(window.offset, window.limit, now) {
        Ok(text) => Outcome::Listed(text),
        Err(_) => Outcome::Memory,
    }
}

/// The description under an id.
fn show(alloc: Global, registry: &mut Registry, id: &str, accept: Accept, now: u64) -> Outcome
    ensures answer { IsOrMemory (spec.shown (shown_under id.now (standing now registry.old)) accept) result }
    ensures left { registry.new ≡ standing now registry.old }
{
    match registry.get(id, now) {
        Ok(found) => described(alloc, found, accept),
        Err(_) => Outcome::Memory,
    }
}

/// A description, where it is there.
fn described(alloc: Global, found: Option<Tree>, accept: Accept) -> Outcome
    ensures { IsOrMemory (spec.shown (option_map json_of found) accept) result }
{
    let tree = match found {
        Some(tree) => tree,
        None => return Outcome::NotFound,
    };
    match text_of(alloc, &tree) {
        Ok(text) => Outcome::Description(text, accept.td),
        Err(_) => Outcome::Memory,
    }
}

/// Keeps a description under an id that the directory gives.
fn create(registry: &mut Registry, description: Tree, now: u64) -> Outcome
    requires { now ≤ last_moment }
    ensures { spec.CreatesEntryAt (json_of description) now result (standing now registry.old) registry.new }
{
    match registry.create(description, now) {
        Ok(id) => Outcome::Created(Some(id)),
        Err(fault) => outcome_of(fault),
    }
}

/// Keeps a description under an id.
fn put(registry: &mut Registry, id: &str, description: Tree, now: u64) -> Outcome
    requires { now ≤ last_moment }
    ensures { spec.PutsEntryAt id.now (json_of description) now result (standing now registry.old) registry.new }
{
    match registry.put(id, description, now) {
        Ok(true) => Outcome::Created(None),
        Ok(false) => Outcome::Changed,
        Err(fault) => outcome_of(fault),
    }
}

/// Changes the description under an id by a merge patch.
fn patch(registry: &mut Registry, id: &str, merge: &Tree, now: u64) -> Outcome
    requires { now ≤ last_moment }
    ensures { spec.PatchesEntryAt id.now (json_of merge.now) now result (standing now registry.old) registry.new }
{
    match registry.patch(id, merge, now) {
        Ok(()) => Outcome::Changed,
        Err(fault) => outcome_of(fault),
    }
}

/// Removes the description under an id.
fn remove(registry: &mut Registry, id: &str, now: u64) -> Outcome
    ensures { spec.RemovesEntryAt id.now result (standing now registry.old) registry.new }
{
    match registry.remove(id, now) {
        Ok(()) => Outcome::Deleted,
        Err(fault) => outcome_of(fault),
    }
}

/// The outcome of a fault.
fn outcome_of(fault: RegFault) -> Outcome
    ensures { result ≡ spec.outcome_of_fault fault }
{
    match fault {
        RegFault::Ttl => Outcome::BadTtl,
        RegFault::Directory(fault) => outcome_of_fault(fault),
    }
}
