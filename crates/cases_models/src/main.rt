//! Tables of Thing Models. Each word names a file of cases, which are separated by empty lines; `case.rt` has their
//! lines. The program prints each line as it is, and after ` => ` what comes of it in place of what is to come: so it
//! prints its files, if all is right.
#![tactic(auto)]

mod case;
mod derivations;
mod parts;
mod resolving;

use case::Case;
use cases_notation::{print_files, put_came, put_given, put_histories};
use std::alloc::{AllocError, Global};
use std::io;

/// Writes a line with what came of it. A line that only puts something down shows a fault alone.
fn put_line(
    text: &mut String,
    said: &mut String,
    case: &mut Case,
    line: &str,
) -> Result<(), AllocError> {
    said.clear();
    match line.split_once(" => ") {
        Some((given, wanted)) => {
            case.take(said, given)?;
            put_given(text, given)?;
            put_came(text, case.alloc, wanted, said.as_str())?;
        }
        None => {
            case.take(said, line)?;
            text.push_str(line)?;
            if !said.is_empty() && said.as_str() != "added" {
                text.push_str(" => ")?;
                text.push_str(said.as_str())?;
            }
        }
    }
    text.push_str("\n")
}

/// Writes a case with what came of its lines. The texts are lent, because a function that owned them too would give up
/// all at each `?`.
fn put_case(
    text: &mut String,
    said: &mut String,
    alloc: Global,
    lines: &str,
) -> Result<(), AllocError> {
    let mut case = Case::new(alloc);
    for line in lines.lines() {
        put_line(text, said, &mut case, line)?;
    }
    Ok(())
}

/// Writes the cases of a file with what came of them.
fn put_file(text: &mut String, alloc: Global, _name: &str, lines: &str) -> Result<(), AllocError> {
    let mut said = String::new(alloc);
    put_histories(
        text,
        lines,
        |text, case| put_case(text, &mut said, alloc, case),
    )
}

fn main(rt: HostRuntime) -> io::Result<()> {
    print_files(&rt, put_file)
}
