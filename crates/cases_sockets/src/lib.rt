//! Tests of the network over the sockets of the machine. The rest of the outside and the handlers are in the tables of
//! `cases_edge`.
#![tactic(auto)]

#[cfg(test)]
mod dialling;
#[cfg(test)]
mod listening;
#[cfg(test)]
mod order;
#[cfg(test)]
mod shares;
#[cfg(test)]
mod sockets;
