//! Numbers as the values of options (RFC 7252, section 3.2).

ghost use Rattle.std.specs.Prelude.{◌≡◌, ◌≤◌, ◌<◌, ◌^◌, [], ◌∷◌, length, OnOk};
ghost use Rattle.coap_msg.specs.Numbers.{number_of, number_bytes};
ghost use Rattle.coap_msg.specs.Opts.{last_number, PutsOptions};
ghost use Rattle.coap_msg.specs.Written.{IsWritten};

use crate::{NoRoom, Opts};

/// The number that up to four bytes say, in network byte order. A caller has asked how many there are.
pub fn number_of(value: &[u8]) -> u32
    requires { length value.now ≤ 4 }
    ensures { result ≡ number_of value.now }
{
    match value {
        [] => 0,
        [low] => u32::from(*low),
        [high, low] => 256 * u32::from(*high) + u32::from(*low),
        [high, middle, low] => {
            65536 * u32::from(*high) + 256 * u32::from(*middle) + u32::from(*low)
        }
        [highest, high, middle, low, ..] => {
            16777216 * u32::from(*highest)
                + 65536 * u32::from(*high)
                + 256 * u32::from(*middle)
                + u32::from(*low)
        }
    }
}

/// Writes the option of this number whose value is a number, in as few bytes as say it, as RFC 7252 (section 3.2) asks.
#[tactic(auto, using(crate::proofs::OptionParts::last_written))]
pub fn put_number(options: &mut Opts<'_>, number: u16, value: u32) -> Result<(), NoRoom>
    requires { last_number 0 options.old.list ≤ number }
    ensures ok { PutsOptions ((number, number_bytes value) ∷ []) result options.old options.new }
    ensures last { OnOk result (last_number 0 options.new.list ≡ number) }
{
    let [highest, high, middle, low] = value.to_be_bytes();
    if value == 0 {
        options.push(number, &[])
    } else if value < 256 {
        options.push(number, &[low])
    } else if value < 65536 {
        options.push(number, &[middle, low])
    } else if value < 16777216 {
        options.push(number, &[high, middle, low])
    } else {
        options.push(number, &[highest, high, middle, low])
    }
}

/// Writes a number below 2^24 to the beginning of `out`, in as few bytes as say it, and returns their number.
pub fn write_number(number: u32, out: &mut [u8; 3]) -> usize
    requires { number < 2 ^ 24 }
    ensures { IsWritten (number_bytes number) result out.old out.new }
{
    let high = (number / 65536) as u8;
    let middle = (number / 256 % 256) as u8;
    let low = (number % 256) as u8;
    if number == 0 {
        0
    } else if number < 256 {
        out[0] = low;
        1
    } else if number < 65536 {
        out[0] = middle;
        out[1] = low;
        2
    } else {
        *out = [high, middle, low];
        3
    }
}
