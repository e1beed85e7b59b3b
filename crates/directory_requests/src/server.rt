//! A directory that does what requests ask.

ghost use Rattle.std.specs.Prelude.{◌≡◌, ◌≤◌, IfSome};
ghost use Rattle.thing_ops.specs.Requests.{request_seen};
ghost use Rattle.wot_registry.specs.Dates.{last_millisecond};
ghost use Rattle.wot_registry.specs.Times.{last_moment};
ghost use Rattle.directory_requests.specs.Requests.{no_entries, standing_at, ActsOnStanding};
ghost use Rattle.directory_requests.specs.Judged.{IsJudged};

use crate::judging::{DirectoryTask, judge};
use crate::performing::perform_task;
use crate::registering::perform_task_at;
use std::alloc::Global;
use std::marker::Model;
use thing_ops::{Outcome, Request};
use wot_directory::Directory;
use wot_registry::Registry;

/// The entries of a directory, with or without times.
#[derive(Drop)]
pub enum ServedEntries {
    /// Descriptions alone, since nobody says when the clock began.
    Untimed(Directory),
    /// Descriptions with registration information, which tells dates.
    Timed(Registry),
}

/// A directory that does what requests ask. Contracts see its entries.
#[derive(Drop)]
pub struct DirectoryServer {
    alloc: Global,
    entries: ServedEntries,
}

impl Model for DirectoryServer {
    ghost use Rattle.std.specs.Coded.{codes};
    ghost use Rattle.wot_directory.specs.Contents.{contents_code};
    ghost use Rattle.wot_registry.specs.Registry.{registered_code};
    ghost use Rattle.directory_requests.specs.declared.server.ServedEntries.{ServedEntries};

    ghost Value = { ServedEntries };

    ghost coded = { Prim.hlevel (codes, contents_code, registered_code) };

    ghost view = { λ s. s.entries };
}

impl DirectoryServer {
    /// A directory without entries. They have times, where it is known how many milliseconds after the start of 1970
    /// the clock began.
    pub fn new(alloc: Global, epoch: Option<u64>) -> Self
        requires { IfSome epoch (λ e. e ≤ last_millisecond) }
        ensures { result ≡ no_entries epoch }
    {
        DirectoryServer {
            alloc,
            entries: ServedEntries::new(alloc, epoch),
        }
    }

    /// Performs a request at the moment `now`, once the entries that are over then were taken away, and gives its
    /// outcome.
    pub fn perform(&mut self, request: &Request<'_>, now: u64) -> Outcome
        requires { now ≤ last_moment }
        ensures { ActsOnStanding (request_seen request.now) now result (standing_at now self.old) self.new }
    {
        match judge(self.alloc, request) {
            Ok(task) => self.entries.perform(self.alloc, task, request, now),
            Err(outcome) => {
                self.entries.remove_expired(now);
                outcome
            }
        }
    }
}

impl ServedEntries {
    /// No entries.
    fn new(alloc: Global, epoch: Option<u64>) -> Self
        requires { IfSome epoch (λ e. e ≤ last_millisecond) }
        ensures { result ≡ no_entries epoch }
    {
        match epoch {
            Some(epoch) => ServedEntries::Timed(Registry::new(alloc, epoch)),
            None => ServedEntries::Untimed(Directory::new(alloc)),
        }
    }

    /// Takes away the entries that are over at the moment `now`.
    fn remove_expired(&mut self, now: u64)
        ensures { self.new ≡ standing_at now self.old }
    {
        match self {
            ServedEntries::Untimed(_) => {}
            ServedEntries::Timed(registry) => registry.remove_expired(now),
        }
    }

    /// Performs the task of a request at the moment `now`, once the entries that are over then were taken away.
    fn perform(
        &mut self,
        alloc: Global,
        task: DirectoryTask,
        request: &Request<'_>,
        now: u64,
    ) -> Outcome
        requires judged { IsJudged (request_seen request.now) task }
        requires bound { now ≤ last_moment }
        ensures { ActsOnStanding (request_seen request.now) now result (standing_at now self.old) self.new }
    {
        match self {
            ServedEntries::Untimed(directory) => perform_task(alloc, directory, task, request),
            ServedEntries::Timed(registry) => perform_task_at(alloc, registry, task, request, now),
        }
    }
}
