//! Bytes that are sent in order on a connection, which takes them only as far as it has room; the rest is kept as long as
//! it has none.

ghost use Rattle.std.specs.Prelude.{◌≡◌, ◌≤◌, ◌++◌, [], drop, IfOk, length};
ghost use Rattle.servient_edge.specs.Sending.{SentOn, Takes, taken_on};

use crate::kept::Kept;
use servient_system::{Refusal, System};

/// One write of two pieces. It gives the number of their bytes that were taken, 0 where there is no room.
fn write_both<S: System>(system: &mut S, c: u32, head: &[u8], body: &[u8]) -> Result<usize, Refusal>
    ensures bound { IfOk result (λ count. count ≤ length (head.now ++ body.now)) }
    ensures bytes { Takes (taken_on c (S.asked system.old)) (taken_on c (S.asked system.new)) result (head.now ++ body.now) }
{
    match system.write(c, head, body) {
        Ok(count) => Ok(count),
        Err(refusal) => {
            if refusal == Refusal::NotNow {
                return Ok(0);
            }
            Err(refusal)
        }
    }
}

/// Sends two pieces on a connection behind the bytes that are kept: those that can't be taken at once are kept. After a
/// refusal neither is of more use.
pub fn send<S: System>(
    system: &mut S,
    c: u32,
    kept: &mut Kept,
    head: &[u8],
    body: &[u8],
) -> Result<(), Refusal>
    ensures { IfOk result (λ _. SentOn (taken_on c (S.asked system.old)) kept.old (head.now ++ body.now) (taken_on c (S.asked system.new)) kept.new) }
{
    if kept.len() > 0 {
        kept.keep(head, body)?;
        return Ok(());
    }
    let count = write_both(system, c, head, body)?;
    kept.keep(
        after(head, count),
        after(body, count.saturating_sub(head.len())),
    )?;
    Ok(())
}

/// One write of the bytes that are kept, and the number of those that were taken.
pub fn flush<S: System>(system: &mut S, c: u32, kept: &mut Kept) -> Result<usize, Refusal>
    ensures sent { IfOk result (λ _. SentOn (taken_on c (S.asked system.old)) kept.old [] (taken_on c (S.asked system.new)) kept.new) }
{
    let count = write_both(system, c, kept.as_slice(), &[])?;
    kept.take_front(count);
    Ok(count)
}

/// The bytes after the first n.
fn after(bytes: &[u8], count: usize) -> &[u8]
    ensures { result.now ≡ drop count bytes.now }
{
    match bytes.get(count..) {
        Some(rest) => rest,
        None => &[],
    }
}
