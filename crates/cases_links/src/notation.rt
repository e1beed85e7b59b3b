//! Links in the notation of the tables.

use cases_notation::{bytes_of, put};
use core_links::{Link, Links, Param, Params};
use std::alloc::{AllocError, Global};
use wot_json::Bytes;

/// Writes bytes, of which those that are the byte tried are shown as `@`.
fn put_shown(text: &mut String, bytes: &[u8], tried: Option<u8>) -> Result<(), AllocError> {
    let Some(tried) = tried else {
        return put(text, bytes);
    };
    if bytes.is_empty() {
        return text.push_str("-");
    }
    for byte in bytes {
        if *byte == tried {
            text.push_str("@")?;
        } else {
            put(text, &[*byte])?;
        }
    }
    Ok(())
}

/// Writes a parameter.
fn put_param(text: &mut String, param: &Param, tried: Option<u8>) -> Result<(), AllocError> {
    text.push_str(" param ")?;
    put_shown(text, param.name.as_slice(), tried)?;
    if let Some(value) = &param.value {
        text.push_str(" value ")?;
        put_shown(text, value.as_slice(), tried)?;
    }
    Ok(())
}

/// Writes a link.
fn put_link(text: &mut String, link: &Link, tried: Option<u8>) -> Result<(), AllocError> {
    text.push_str("link ")?;
    put_shown(text, link.target.as_slice(), tried)?;
    for param in link.params.as_slice() {
        put_param(text, param, tried)?;
    }
    Ok(())
}

/// Writes links, or `no links`.
pub fn put_links(text: &mut String, links: &Links, tried: Option<u8>) -> Result<(), AllocError> {
    if links.as_slice().is_empty() {
        return text.push_str("no links");
    }
    for (place, link) in links.as_slice().iter().enumerate() {
        if place > 0 {
            text.push_str(" ")?;
        }
        put_link(text, link, tried)?;
    }
    Ok(())
}

/// The bytes of a text, with spaces round it left out.
fn bytes_in(alloc: Global, text: &str) -> Result<Bytes, AllocError> {
    Ok(Bytes::from_vec(bytes_of(alloc, text.trim())?))
}

/// The parameter after a `param`.
fn param_of(alloc: Global, text: &str) -> Result<Param, AllocError> {
    match text.split_once(" value ") {
        None => Ok(Param {
            name: bytes_in(alloc, text)?,
            value: None,
        }),
        Some((name, value)) => {
            let name = bytes_in(alloc, name)?;
            Ok(Param {
                name,
                value: Some(bytes_in(alloc, value)?),
            })
        }
    }
}

/// Puts the parameters in a text after others.
fn push_params(params: &mut Params, alloc: Global, text: &str) -> Result<(), AllocError> {
    for piece in text.split("param ").skip(1) {
        params.push(param_of(alloc, piece)?)?;
    }
    Ok(())
}

/// The link after a `link`.
fn link_of(alloc: Global, text: &str) -> Result<Link, AllocError> {
    let (target, _params) = text.split_once(" param ").unwrap_or((text, ""));
    let mut link = Link {
        target: bytes_in(alloc, target)?,
        params: Params::new(alloc),
    };
    push_params(&mut link.params, alloc, text)?;
    Ok(link)
}

/// Puts the links in a text after others.
pub fn push_links(links: &mut Links, alloc: Global, text: &str) -> Result<(), AllocError> {
    for piece in text.split("link ").skip(1) {
        links.push(link_of(alloc, piece)?)?;
    }
    Ok(())
}
