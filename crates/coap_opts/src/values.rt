//! The values of options that are numbers.

ghost use Rattle.std.specs.Prelude.{◌≡◌, ◌≤◌, option_map, option_and_then};
ghost use Rattle.coap_opts.specs.Reading.{number_within};

use crate::known::Known;
use coap_msg::number_of;

/// The number that the first value of this row's option says, if it is there and counts.
pub fn numeric(row: Known, value: Option<&[u8]>) -> Option<u32>
    requires { row.longest ≤ 3 }
    ensures { result ≡ option_and_then (number_within row) (option_map (λ v. v.now) value.entry) }
{
    match value {
        Some(value) => {
            if row.shortest <= value.len() && value.len() <= row.longest {
                Some(number_of(value))
            } else {
                None
            }
        }
        None => None,
    }
}
