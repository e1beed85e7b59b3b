//! The text of a date and time, by `jiff`'s civil date-times.

ghost use Rattle.std.specs.Prelude.{◌≡◌, ◌≤◌, ◌*ℤ◌, ◌≤ℤ◌, pos, IfOk};
ghost use Rattle.jiff_core.specs.DateTime.{civil_nanos};
ghost use Rattle.wot_registry.specs.Dates.{last_millisecond};
ghost use Rattle.wot_registry.specs.Dates as spec;

use jiff::SignedDuration;
use jiff::civil::{DateTime, date};
use servient_base::NoMemory;
use std::alloc::Global;
use wot_json::Text;

/// The last millisecond of the year 9999, counted from the start of 1970.
const LAST_MILLISECOND: u64 = 253_402_300_799_999;

/// The start of 1970.
#[tactic(auto, using(crate::proofs::Start::start_is_zero))]
fn start() -> DateTime
    ensures { civil_nanos result ≡ pos 0 }
{
    date(1970, 1, 1).at(0, 0, 0, 0)
}

/// The date and time that lies so many milliseconds after the start of 1970, which is before the year 10000.
fn date_time_at(milliseconds: u64) -> DateTime
    requires { milliseconds ≤ last_millisecond }
    ensures { civil_nanos result ≡ pos milliseconds *ℤ pos 1_000_000 }
{
    start()
        .checked_add(SignedDuration::from_millis(milliseconds as i64))
        .unwrap()
}

/// The text of a date and time, with its milliseconds.
fn date_time_text(alloc: Global, at: DateTime) -> Result<Text, NoMemory>
    requires { pos 0 ≤ℤ at.date.year }
    ensures { IfOk result (λ t. t ≡ spec.date_time_text at) }
{
    let (year, month, day) = (
        at.year().unsigned_abs(),
        at.month().unsigned_abs(),
        at.day().unsigned_abs(),
    );
    let (hour, minute, second) = (
        at.hour().unsigned_abs(),
        at.minute().unsigned_abs(),
        at.second().unsigned_abs(),
    );
    let millisecond = at.millisecond().unsigned_abs();
    let text = format!(in alloc;
        "{year:04}-{month:02}-{day:02}T{hour:02}:{minute:02}:{second:02}.{millisecond:03}Z"
    )?;
    Ok(Text::from_string(text))
}

/// The text of the UTC date and time that lies so many milliseconds after the start of 1970, or of the last millisecond
/// of the year 9999 where it lies after that.
pub fn date_text(alloc: Global, milliseconds: u64) -> Result<Text, NoMemory>
    ensures { IfOk result (λ t. t ≡ spec.date_text milliseconds) }
{
    let at = date_time_at(milliseconds.min(LAST_MILLISECOND));
    date_time_text(alloc, at)
}
