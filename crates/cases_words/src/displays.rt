//! The displays of errors that no other table brings about: `NAME => TEXT`.

use coap_msg::NoRoom;
use command_words::WordsFault;
use std::alloc::AllocError;
use std::fmt::Write;
use wot_forms::HrefFault;
use wot_json::ReadFault;
use wot_schema::SchemaFault;
use wot_terms::CheckFault;

pub fn put(said: &mut String, name: &str) -> Result<(), AllocError> {
    match name {
        "ReadFault" => write!(said, "{}", ReadFault::NoMemory),
        "SchemaFault" => write!(said, "{}", SchemaFault::NoMemory),
        "CheckFault" => write!(said, "{}", CheckFault::NoMemory),
        "HrefFault" => write!(said, "{}", HrefFault::NoMemory),
        "WordsFault" => write!(said, "{}", WordsFault::NoMemory),
        "NoRoom" => write!(said, "{NoRoom}"),
        _ => said.push_str("no such error"),
    }
}
