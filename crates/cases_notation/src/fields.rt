//! Fields of rows that name parts of messages: endpoints, and the options of requests.

use crate::bytes::number;
use coap_msg::Endpoint;

/// A number of 16 bits in decimal digits, 0 where it has none or is greater.
pub fn small_number(field: Option<&str>) -> u16 {
    u16::try_from(number(field)).unwrap_or(0)
}

/// The endpoint of a word, as `host1:5684`; without a port it is 5683.
pub fn endpoint_of(word: &str) -> Endpoint {
    let (host, port) = word.split_once(':').unwrap_or((word, "5683"));
    Endpoint {
        host: u128::from(number(host.strip_prefix("host"))),
        port: small_number(Some(port)),
    }
}

/// The number of the option of this name at the beginning of these words, if it is there, and the words after it.
pub fn option_of<'a>(name: &str, words: &'a str) -> (Option<&'a str>, &'a str) {
    match words.strip_prefix(name) {
        Some(rest) => {
            let (digits, payload) = rest.split_once(' ').unwrap_or((rest, "-"));
            (Some(digits), payload)
        }
        None => (None, words),
    }
}

/// The content format of these digits.
pub fn format_of(digits: Option<&str>) -> Option<u16> {
    match digits {
        Some(digits) => digits.parse::<u16>().ok(),
        None => None,
    }
}
