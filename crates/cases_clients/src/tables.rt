//! Tables of a consumer's decisions: each row with what comes of it.

use crate::{choices, consumptions, discoveries, http_requests, judgements};
use cases_notation::Row;
use std::alloc::{AllocError, Global};

/// Whether a file is one of these tables.
pub fn is_table(name: &str) -> bool {
    matches!(
        name,
        "choices" | "judgements" | "http_requests" | "consumptions" | "transfers" | "discoveries"
    )
}

/// Writes what comes of a row of a table.
pub fn put_row(
    text: &mut String,
    alloc: Global,
    table: &str,
    row: Row<'_>,
) -> Result<(), AllocError> {
    match table {
        "choices" => choices::put(text, alloc, row.about, row.given),
        "consumptions" | "transfers" => consumptions::put(text, alloc, row.about, row.given),
        "discoveries" => discoveries::put(text, alloc, row.given),
        "judgements" => judgements::put(text, alloc, row.about, row.given),
        _ => http_requests::put(text, alloc, row.given),
    }
}
