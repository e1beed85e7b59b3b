//! The path and the query of a request target, cut into segments and decoded.

ghost use Rattle.std.specs.Prelude.{◌≡◌, ◌<◌, ◌⊎◌, length, Some, None, IsSome, IfSome, IfOk, IfErr, option_map};
ghost use Rattle.http_wire.specs.Targets.{path_behind_authority, path_in, segments_behind as segments_behind_of, segments_of, query_place};
ghost use Rattle.http_wire.specs.declared.target.TargetFault.TheVariants.{BadTarget, NoMemory as no_memory};

use http_fields::{cut, cut_at_each};
use memchr::memchr;
use percent_encoding::percent_decode;
use std::alloc::{AllocError, Global};
use thing_ops::{NoMemory, Segments};
use thiserror::Error;

/// The bytes of `http://`.
const SCHEME: usize = 7;

/// The reason for which the path of a target isn't read.
#[derive(Clone, Copy, Debug, PartialEq, Eq, Drop, Error)]
pub enum TargetFault {
    /// The target has neither the origin form nor `http://` with an authority and a path.
    #[error("the request target has no path that is taken")]
    BadTarget,
    /// Out of memory.
    #[error("out of memory")]
    NoMemory,
}

impl From<AllocError> for TargetFault {
    ghost use Rattle.std.specs.Prelude.{◌≡◌};
    ghost use Rattle.http_wire.specs.declared.target.TargetFault.TheVariants.{NoMemory};

    ghost from_gives = { λ _ fault. fault ≡ NoMemory };

    fn from(_error: AllocError) -> TargetFault {
        TargetFault::NoMemory
    }
}

/// The segments of the path of a target, percent-encoding taken away, and the place where its query begins, which is
/// the end where it has none (RFC 9112, section 3.2).
pub fn segments(alloc: Global, target: &[u8]) -> Result<(Segments, usize), TargetFault>
    ensures ok { IfOk result (λ r. (segments_of target.now ≡ Some r.0) × (r.1 ≡ query_place target.now)) }
    ensures fault { IfErr result (λ e. ((e ≡ BadTarget) × (segments_of target.now ≡ None))
        ⊎ ((e ≡ no_memory) × IsSome (segments_of target.now))) }
{
    let (before, query) = cut(b'?', target);
    match path(before) {
        Some(path) => {
            let segments = segments_behind(alloc, &path[1..])?;
            Ok((segments, target.len() - query.len()))
        }
        None => Err(TargetFault::BadTarget),
    }
}

/// The path in the bytes before a query. It is a function because the prover forgets at a join which form was found.
/// The absolute form is read too, since a server must accept it (RFC 9112, section 3.2.2).
fn path(before: &[u8]) -> Option<&[u8]>
    ensures ok { option_map (λ p. p.now) result ≡ path_in before.now }
    ensures begins { IfSome result (λ p. 0 < length p.now) }
{
    if before.starts_with(b"/") {
        Some(before)
    } else if before.starts_with(b"http://") {
        behind_authority(&before[SCHEME..])
    } else {
        None
    }
}

/// The path after an authority.
fn behind_authority(bytes: &[u8]) -> Option<&[u8]>
    ensures ok { option_map (λ p. p.now) result ≡ path_behind_authority bytes.now }
    ensures begins { IfSome result (λ p. 0 < length p.now) }
{
    let slash = memchr(b'/', bytes).unwrap_or(bytes.len());
    if slash > 0 && slash < bytes.len() {
        Some(&bytes[slash..])
    } else {
        None
    }
}

/// The segments after the first `/` of a path, percent-encoding taken away.
pub fn segments_behind(alloc: Global, path: &[u8]) -> Result<Segments, NoMemory>
    ensures { IfOk result (λ s. s ≡ segments_behind_of path.now) }
{
    if path.is_empty() {
        return Ok(Segments::new(alloc));
    }
    let mut segments = Segments::with_capacity(alloc, path.len())?;
    for part in cut_at_each(b'/', path) {
        let decoded = percent_decode(part).into_cow(alloc)?;
        segments.push(&decoded)?;
    }
    Ok(segments)
}
