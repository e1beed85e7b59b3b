//! Data schemas (Thing Description 1.1, section 5.3.2).
//!
//! ```text
//! SCHEMA on VALUE => accepted    whether the schema accepts the value, or the schema's fault
//! SCHEMA => the schema           the tree that the schema keeps, or its first fault
//! ```

use crate::json_texts::put_tree;
use std::alloc::{AllocError, Global};
use std::fmt::Write;
use wot_json::{Tree, read};
use wot_schema::{Schema, check};

/// Writes whether a schema accepts a value.
fn put_judged(
    said: &mut String,
    alloc: Global,
    schema: &Schema,
    value: &str,
) -> Result<(), AllocError> {
    match read(alloc, value.as_bytes()) {
        Ok(value) if schema.accepts(&value) => said.push_str("accepted"),
        Ok(_) => said.push_str("refused"),
        Err(fault) => write!(said, "{fault}"),
    }
}

/// The same of a schema's tree.
fn put_accepted(
    said: &mut String,
    alloc: Global,
    schema: &Tree,
    value: &str,
) -> Result<(), AllocError> {
    match Schema::read(alloc, schema) {
        Ok(schema) => put_judged(said, alloc, &schema, value),
        Err(fault) => write!(said, "{fault}"),
    }
}

/// Says so where a schema with a fault is read all the same.
fn put_if_read(said: &mut String, alloc: Global, schema: &Tree) -> Result<(), AllocError> {
    if Schema::read(alloc, schema).is_ok() {
        said.push_str(", but it is read")?;
    }
    Ok(())
}

/// Writes the tree that a schema keeps, or the first fault.
fn put_checked(said: &mut String, alloc: Global, schema: &Tree) -> Result<(), AllocError> {
    match check(alloc, schema) {
        Ok(()) => put_tree(said, alloc, Schema::compile(alloc, schema)?.tree()),
        Err(fault) => {
            write!(said, "{fault}")?;
            put_if_read(said, alloc, schema)
        }
    }
}

/// Writes what comes of a row.
pub fn put(said: &mut String, alloc: Global, given: &str) -> Result<(), AllocError> {
    let (schema, value) = given.split_once(" on ").unwrap_or((given, ""));
    match read(alloc, schema.as_bytes()) {
        Ok(schema) if value.is_empty() => put_checked(said, alloc, &schema),
        Ok(schema) => put_accepted(said, alloc, &schema, value),
        Err(fault) => write!(said, "{fault}"),
    }
}
