//! The options of a message that was read, over the bytes that spell them (RFC 7252, section 3.1).

ghost use Rattle.std.specs.Prelude.{◌≡◌, ◌<◌, ◌≤◌, option_map, IfSome};
ghost use Rattle.coap_msg.specs.Grammar.{largest_number};
ghost use Rattle.coap_msg.specs.Options.{number_at, option_at, options_of};
ghost use Rattle.coap_msg.specs.OptionsLeft.{options_left};

use std::marker::Model;

/// The nibble that one extended byte follows (RFC 7252, section 3.1).
pub const ONE_BYTE: u8 = 13;

/// The nibble that two extended bytes follow.
pub const TWO_BYTES: u8 = 14;

/// The least number that one extended byte says.
pub const FROM_ONE_BYTE: usize = 13;

/// The least number that two extended bytes say.
pub const FROM_TWO_BYTES: usize = 269;

/// The largest number of an option.
const LARGEST_OPTION: usize = 65_535;

/// The options of a message, seen as the list of their numbers and values.
#[derive(Drop)]
pub struct Options<'a> {
    pub(crate) bytes: &'a [u8],
}

impl<'a> Model for Options<'a> {
    ghost use Rattle.std.specs.Prelude.{List};
    ghost use Rattle.coap_msg.specs.Grammar.{CoapOption};
    ghost use Rattle.coap_msg.specs.Options.{options_of};

    ghost Value = { List CoapOption };

    ghost view = { λ o. options_of o.bytes.now };
}

impl<'a> Options<'a> {
    /// The bytes that spell the options.
    pub fn as_bytes(&self) -> &'a [u8]
        ensures { options_of result.now ≡ self.now }
    {
        self.bytes
    }

    /// Goes over the options in their order: the number and the value of each.
    pub fn iter(&self) -> OptionsIter<'a>
        ensures { options_left result ≡ self.now }
    {
        OptionsIter {
            rest: self.bytes,
            last: 0,
        }
    }
}

/// The options of a message from one of them on.
#[derive(Drop)]
pub struct OptionsIter<'a> {
    rest: &'a [u8],
    last: u16,
}

impl<'a> Iterator for OptionsIter<'a> {
    type Item = (u16, &'a [u8]);

    ghost use Rattle.std.specs.Iterator.{YieldsFirstBy, item_count};
    ghost use Rattle.coap_msg.specs.OptionsLeft.{options_left, option_of_item};

    ghost next_gives = { YieldsFirstBy option_of_item options_left };

    ghost remaining = { item_count options_left };

    fn next(&mut self) -> Option<(u16, &'a [u8])> {
        // A match and not `?`, since that says its facts of a `ControlFlow`.
        match take_option(self.last, self.rest) {
            Some((number, value, next)) => {
                self.last = number;
                self.rest = next;
                Some((number, value))
            }
            None => None,
        }
    }
}

/// The number of a nibble with its extended bytes, and the bytes after them.
#[tactic(auto, unfolding(crate::specs::Options::number_at))]
pub fn take_number(nibble: u8, bytes: &[u8]) -> Option<(usize, &[u8])>
    requires { nibble < 16 }
    ensures ok { option_map (λ taken. (taken.0, taken.1.now)) result ≡ number_at nibble bytes.now }
    ensures bound { IfSome result (λ taken. taken.0 ≤ largest_number) }
{
    match nibble {
        0..=12 => Some((nibble as usize, bytes)),
        ONE_BYTE => {
            let (extended, rest) = bytes.split_first()?;
            Some((*extended as usize + FROM_ONE_BYTE, rest))
        }
        TWO_BYTES => match bytes {
            [high, low, rest @ ..] => {
                let extended = 256 * (*high as usize) + *low as usize;
                Some((extended + FROM_TWO_BYTES, rest))
            }
            _ => None,
        },
        _ => None,
    }
}

/// Number and value of the first option, after one of the number `last`, and the bytes after it.
#[tactic(auto, unfolding(crate::specs::Options::option_at))]
pub fn take_option(last: u16, bytes: &[u8]) -> Option<(u16, &[u8], &[u8])>
    ensures { option_map (λ taken. ((taken.0, taken.1.now), taken.2.now)) result ≡ option_at last bytes.now }
{
    let (first, rest) = bytes.split_first()?;
    let (delta, rest) = take_number(*first / 16, rest)?;
    let (size, rest) = take_number(*first % 16, rest)?;
    if rest.len() < size {
        return None;
    }
    let number = last as usize + delta;
    if number > LARGEST_OPTION {
        return None;
    }
    let (value, rest) = rest.split_at(size);
    Some((number as u16, value, rest))
}
