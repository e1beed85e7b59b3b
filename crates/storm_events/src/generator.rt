//! The numbers of the storm.

ghost use Rattle.std.specs.Prelude.{◌≡◌};
ghost use Rattle.storm_events.specs.Generator.{drawn as drawn_at, number_after as after};

/// Knuth's multiplier for MMIX (The Art of Computer Programming, volume 2, section 3.3.4).
const MULTIPLIER: u64 = 6364136223846793005;

/// The number that is added each time.
const INCREMENT: u64 = 1442695040888963407;

/// The number after another.
pub fn number_after(number: u64) -> u64
    ensures { result ≡ after number }
{
    number.wrapping_mul(MULTIPLIER).wrapping_add(INCREMENT)
}

/// The number that is drawn where the generator comes to this one. Its lower bits are left out, because they come round
/// soon.
pub fn drawn(number: u64) -> u64
    ensures { result ≡ drawn_at number }
{
    number / (1 << 33)
}
