//! Tests of a table of exchanges that no rows of a file can say, for their number. Other cases are in `cases_bindings`
//! and `cases_exchanges`.
#![tactic(auto)]

#[cfg(test)]
mod storm;
