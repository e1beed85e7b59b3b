//! Bodies of responses that are kept. A step is `MOMENT put HOST PATH CODE FORMAT TAG BYTES` or `MOMENT get HOST PATH`,
//! and the body that is got; a format or a version that is none is `-`.

ghost use Rattle.std.specs.Prelude.{◌≤◌};
ghost use Rattle.coap_blocks.specs.Paths.{path_size};

use crate::fields::{code_of, path_of};
use cases_notation::{bytes_of, endpoint_of, number, put_rows, put_runs, small_number};
use coap_blocks::{Bodies, Whole};
use coap_msg::Endpoint;
use std::alloc::{AllocError, Global};
use std::fmt::Write;
use thing_ops::Segments;

/// The most bytes of a body.
const LONGEST: usize = 65_536;

/// The moment and the endpoint of a step.
#[derive(Clone, Copy)]
struct Head {
    moment: u64,
    from: Endpoint,
}

/// Writes a number that there may be.
fn put_number(text: &mut String, number: Option<u32>) -> Result<(), AllocError> {
    match number {
        Some(number) => write!(text, "{number} "),
        None => text.push_str("- "),
    }
}

/// Writes a body.
fn put_whole(text: &mut String, whole: &Whole<'_>) -> Result<(), AllocError> {
    write!(text, "{} ", whole.code)?;
    put_number(text, whole.format.map(u32::from))?;
    put_number(text, whole.tag)?;
    put_runs(text, whole.bytes)
}

/// Writes the body that is got.
fn put_got(text: &mut String, got: Option<Whole<'_>>) -> Result<(), AllocError> {
    match got {
        Some(whole) => put_whole(text, &whole),
        None => text.push_str("nothing"),
    }
}

/// Keeps the body of these fields.
fn keep(
    alloc: Global,
    bodies: &mut Bodies,
    head: Head,
    path: &Segments,
    content: &str,
) -> Result<(), AllocError>
    requires { path_size path.now ≤ 512 }
{
    let mut fields = content.split(' ');
    let code = code_of(fields.next());
    let format = fields.next();
    let tag = fields.next();
    let bytes = bytes_of(alloc, fields.next().unwrap_or("-"))?;
    if bytes.len() <= LONGEST {
        let body = Whole {
            code,
            format: number_in(format).map(|_number| small_number(format)),
            tag: number_in(tag),
            bytes: bytes.as_slice(),
        };
        bodies.put(head.from, path, &body, head.moment);
    }
    Ok(())
}

/// The number of a field; none where it is `-`.
fn number_in(field: Option<&str>) -> Option<u32> {
    if field == Some("-") {
        return None;
    }
    u32::try_from(number(field)).ok()
}

/// Writes the result of a step.
fn put_step(
    text: &mut String,
    alloc: Global,
    bodies: &mut Bodies,
    step: &str,
) -> Result<(), AllocError> {
    let mut fields = step.splitn(5, ' ');
    let moment = number(fields.next());
    let word = fields.next().unwrap_or("");
    let head = Head {
        moment,
        from: endpoint_of(fields.next().unwrap_or("")),
    };
    let path = path_of(alloc, fields.next())?;
    if word == "put" {
        keep(alloc, bodies, head, &path, fields.next().unwrap_or(""))?;
        return text.push_str("done");
    }
    put_got(text, bodies.get(head.from, &path, head.moment))
}

/// A history.
pub fn put(text: &mut String, alloc: Global, history: &str) -> Result<(), AllocError> {
    let mut bodies = Bodies::new(alloc)?;
    put_rows(
        text,
        history,
        |text, step| put_step(text, alloc, &mut bodies, step),
    )
}
