//! The values of models, their links that count, and what is optional in them.

use crate::case::{Case, put_tree, word_of};
use std::alloc::{AllocError, Global};
use std::fmt::Write;
use tm_resolve::{CountedLink, Relation, Resolver, resolve};
use wot_json::Tree;

/// Writes a value, `-` for none.
fn put_value(said: &mut String, alloc: Global, value: &Option<Tree>) -> Result<(), AllocError> {
    match value {
        Some(value) => put_tree(said, alloc, value),
        None => said.push_str("-"),
    }
}

/// Writes a link: its index, its target and its instance name.
fn put_link(said: &mut String, alloc: Global, link: &CountedLink) -> Result<(), AllocError> {
    write!(said, "{} ", link.index)?;
    said.push_str(match &link.target {
        Some(target) => target.as_str(),
        None => "-",
    })?;
    said.push_str(" ")?;
    put_value(said, alloc, &link.instance_name)
}

/// Writes links, with `; ` between them.
fn put_list(said: &mut String, alloc: Global, links: &[CountedLink]) -> Result<(), AllocError> {
    if links.is_empty() {
        return said.push_str("none");
    }
    for (place, link) in links.iter().enumerate() {
        if place > 0 {
            said.push_str("; ")?;
        }
        put_link(said, alloc, link)?;
    }
    Ok(())
}

/// Writes the links of a model that count.
fn put_links(
    said: &mut String,
    alloc: Global,
    resolver: &Resolver<'_>,
    rest: &str,
) -> Result<(), AllocError> {
    let (word, url) = word_of(rest);
    let relation = match word {
        "extends" => Relation::Extends,
        _ => Relation::Submodel,
    };
    put_list(said, alloc, resolver.links(url, relation)?.as_slice())
}

/// Writes what a resolver says of a model.
fn put_asked(said: &mut String, case: &Case, word: &str, rest: &str) -> Result<(), AllocError> {
    let resolver = Resolver::new(case.alloc, &case.library, &case.bindings)?;
    match word {
        "links" => put_links(said, case.alloc, &resolver, rest),
        _ => put_value(said, case.alloc, &resolver.optional(rest)?),
    }
}

/// Writes the value of a model.
fn put_resolved(said: &mut String, case: &Case, url: &str) -> Result<(), AllocError> {
    match resolve(case.alloc, &case.library, url, &case.bindings) {
        Ok(value) => put_tree(said, case.alloc, &value),
        Err(fault) => write!(said, "{fault}"),
    }
}

/// Writes what comes of a line of this word.
pub fn put(said: &mut String, case: &Case, word: &str, rest: &str) -> Result<(), AllocError> {
    match word {
        "resolve" => put_resolved(said, case, rest),
        _ => put_asked(said, case, word, rest),
    }
}
