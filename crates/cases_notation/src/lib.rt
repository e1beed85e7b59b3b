//! The notation of test cases, for the programs that read them from files and print them with their results: bytes as
//! text (`bytes.rt`), also in runs (`runs.rt`), repeats in a text (`expansion.rt`), endpoints and options (`fields.rt`), CoAP messages in words (`messages.rt`), and
//! the files with their rows (`pages.rt`).
#![tactic(auto)]

mod bytes;
mod expansion;
mod fields;
mod messages;
mod names;
mod pages;
mod runs;

pub use bytes::{bytes_of, digit, number, put, put_digits};
pub use expansion::{expanded, numbered, put_came, size_of};
pub use fields::{endpoint_of, format_of, option_of, small_number};
pub use messages::{message_of, put_message};
pub use pages::{
    Row, print_file, print_files, put_given, put_histories, put_rows, put_rows_about, put_words,
};
pub use runs::{put_plain_runs, put_runs};
