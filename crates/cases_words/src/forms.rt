//! Forms of descriptions and of affordances, default operations, and the URLs of hrefs.
//!
//! ```text
//! given JSON                              the description
//! property|action|event NAME => FORMS     the forms of an affordance: href, operations, media type, subprotocol and method (`-` for none)
//! thing => FORMS                          those of the description as a whole
//! default KIND FLAGS => OPERATIONS        the operations of a form that names none
//! BASE HREF => URL                        (of `hrefs`) the URL that an href names with this base; `-` for no base
//! ```

use std::alloc::{AllocError, Global};
use std::fmt::Write;
use wot_forms::{Form, default_ops, forms_of, resolve};
use wot_json::{Text, Tree, read};
use wot_terms::{Kind, Op, check};

/// The kind of a word.
fn kind_of(word: &str) -> Option<Kind> {
    match word {
        "property" => Some(Kind::Property),
        "action" => Some(Kind::Action),
        "event" => Some(Kind::Event),
        _ => None,
    }
}

/// Writes the names of operations, with a comma between them.
fn put_operations(said: &mut String, operations: &[Op]) -> Result<(), AllocError> {
    if operations.is_empty() {
        return said.push_str("none");
    }
    for (place, operation) in operations.iter().enumerate() {
        if place > 0 {
            said.push_str(",")?;
        }
        said.push_str(operation.name())?;
    }
    Ok(())
}

/// Writes a text with a blank before it, `-` for none.
fn put_optional(said: &mut String, text: &Option<Text>) -> Result<(), AllocError> {
    said.push_str(" ")?;
    said.push_str(match text {
        Some(text) => text.as_str(),
        None => "-",
    })
}

/// Writes a form.
fn put_form(said: &mut String, form: &Form) -> Result<(), AllocError> {
    said.push_str(form.href.as_str())?;
    said.push_str(" ")?;
    put_operations(said, form.ops.as_slice())?;
    said.push_str(" ")?;
    said.push_str(form.content_type.as_str())?;
    put_optional(said, &form.subprotocol)?;
    put_optional(said, &form.method)
}

/// Writes forms, with `; ` between them.
fn put_list(said: &mut String, forms: &[Form]) -> Result<(), AllocError> {
    for (place, form) in forms.iter().enumerate() {
        if place > 0 {
            said.push_str("; ")?;
        }
        put_form(said, form)?;
    }
    Ok(())
}

/// Writes the forms of an affordance of a description, or of the description as a whole.
fn put_forms(
    said: &mut String,
    alloc: Global,
    tree: &Tree,
    kind: Option<Kind>,
    name: &str,
) -> Result<(), AllocError> {
    match check(alloc, tree) {
        Ok(()) => match forms_of(alloc, tree, kind, name)? {
            Some(forms) => put_list(said, forms.as_slice()),
            None => said.push_str("nothing"),
        },
        Err(fault) => write!(said, "{fault}"),
    }
}

/// Writes the operations of a form that names none, by a kind and flags.
fn put_default(said: &mut String, words: &str) -> Result<(), AllocError> {
    let (kind, flags) = words.split_once(' ').unwrap_or((words, ""));
    match kind_of(kind) {
        Some(kind) => put_operations(
            said,
            default_ops(
                kind,
                flags.contains("readOnly"),
                flags.contains("writeOnly"),
            )
            .as_slice(),
        ),
        None => said.push_str("no kind"),
    }
}

/// Writes what comes of a row about forms.
pub fn put(
    said: &mut String,
    alloc: Global,
    description: &str,
    given: &str,
) -> Result<(), AllocError> {
    let (word, rest) = given.split_once(' ').unwrap_or((given, ""));
    if word == "default" {
        return put_default(said, rest);
    }
    match read(alloc, description.as_bytes()) {
        Ok(tree) => put_forms(said, alloc, &tree, kind_of(word), rest),
        Err(fault) => write!(said, "{fault}"),
    }
}

/// Writes the URL that an href names.
pub fn put_href(said: &mut String, alloc: Global, given: &str) -> Result<(), AllocError> {
    let (base, href) = given.split_once(' ').unwrap_or((given, ""));
    let base = if base == "-" { None } else { Some(base) };
    match resolve(alloc, base, href) {
        Ok(url) => said.push_str(url.as_str()),
        Err(fault) => write!(said, "{fault}"),
    }
}
