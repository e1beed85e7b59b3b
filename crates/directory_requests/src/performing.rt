//! The effects of requests on a directory whose entries have no times.

ghost use Rattle.std.specs.Prelude.{◌≡◌};
ghost use Rattle.wot_json.specs.Meaning.{json_of};
ghost use Rattle.wot_json.specs.Lookup.{member_named};
ghost use Rattle.thing_ops.specs.Requests.{request_seen};
ghost use Rattle.directory_requests.specs.Window.{window_of as window_by};
ghost use Rattle.directory_requests.specs.Requests as spec;
ghost use Rattle.directory_requests.specs.Judged.{IsJudged, IsOrMemory, DoesTask};

use crate::act::entry_id;
use crate::judging::DirectoryTask;
use crate::window::window_of;
use std::alloc::Global;
use thing_ops::{Accept, Outcome, Request};
use wot_directory::{DirFault, Directory};
use wot_json::{Tree, text_of};

/// Performs the task of a request.
pub(crate) fn perform_task(
    alloc: Global,
    directory: &mut Directory,
    task: DirectoryTask,
    request: &Request<'_>,
) -> Outcome
    requires { IsJudged (request_seen request.now) task }
    ensures { DoesTask task (request_seen request.now) result directory.old directory.new }
{
    match task {
        DirectoryTask::Lists => list(directory, request.query),
        DirectoryTask::Creates(description) => create(directory, description),
        DirectoryTask::Shows => show(alloc, directory, entry_id(&request.path), request.accept),
        DirectoryTask::Puts(description) => put(directory, entry_id(&request.path), description),
        DirectoryTask::Patches(merge) => patch(directory, entry_id(&request.path), &merge),
        DirectoryTask::Removes => remove(directory, entry_id(&request.path)),
    }
}

/// The entries that a query asks for.
fn list(directory: &Directory, query: &[u8]) -> Outcome
    ensures { IsOrMemory (spec.listed_by (window_by query.now) directory.now.entries) result }
{
    let window = match window_of(query) {
        Some(window) => window,
        None => return Outcome::BadValue,
    };
    match directory.list(window.offset, window.limit) {
        Ok(text) => Outcome::Listed(text),
        Err(_) => Outcome::Memory,
    }
}

/// The description under an id.
fn show(alloc: Global, directory: &Directory, id: &str, accept: Accept) -> Outcome
    ensures { IsOrMemory (spec.shown (member_named id.now directory.now.entries) accept) result }
{
    let tree = match directory.get(id) {
        Some(tree) => tree,
        None => return Outcome::NotFound,
    };
    match text_of(alloc, tree) {
        Ok(text) => Outcome::Description(text, accept.td),
        Err(_) => Outcome::Memory,
    }
}

/// Keeps a description under an id that the directory gives.
fn create(directory: &mut Directory, description: Tree) -> Outcome
    ensures { spec.CreatesEntry (json_of description) result directory.old directory.new }
{
    match directory.create(description) {
        Ok(id) => Outcome::Created(Some(id)),
        Err(fault) => outcome_of(fault),
    }
}

/// Keeps a description under an id.
fn put(directory: &mut Directory, id: &str, description: Tree) -> Outcome
    ensures { spec.PutsEntry id.now (json_of description) result directory.old directory.new }
{
    match directory.put(id, description) {
        Ok(true) => Outcome::Created(None),
        Ok(false) => Outcome::Changed,
        Err(fault) => outcome_of(fault),
    }
}

/// Changes the description under an id by a merge patch.
fn patch(directory: &mut Directory, id: &str, merge: &Tree) -> Outcome
    ensures { spec.PatchesEntry id.now (json_of merge.now) result directory.old directory.new }
{
    match directory.patch(id, merge) {
        Ok(()) => Outcome::Changed,
        Err(fault) => outcome_of(fault),
    }
}

/// Removes the description under an id.
fn remove(directory: &mut Directory, id: &str) -> Outcome
    ensures { spec.RemovesEntry id.now result directory.old directory.new }
{
    match directory.remove(id) {
        Ok(()) => Outcome::Deleted,
        Err(fault) => outcome_of(fault),
    }
}

/// The outcome of a fault.
pub(crate) fn outcome_of(fault: DirFault) -> Outcome
    ensures { result ≡ spec.outcome_of fault }
{
    match fault {
        DirFault::NotFound => Outcome::NotFound,
        DirFault::Invalid(first) => Outcome::Invalid(first.number),
        DirFault::IdDiffers => Outcome::IdDiffers,
        DirFault::HasId => Outcome::HasId,
        DirFault::Full => Outcome::DirectoryFull,
        DirFault::NoMemory => Outcome::Memory,
    }
}
