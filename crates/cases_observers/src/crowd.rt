//! A full house: 1,024 observers of 32 endpoints on two targets, and one more for which there is no room. One observer
//! takes a new target between two emissions. One endpoint acknowledges nothing, and is given up; then there is room for
//! as many again.

use crate::played::Bodies;
use crate::steps::Step;
use coap_msg::Endpoint;
use std::alloc::AllocError;

/// The number of endpoints, and the number of tokens of each.
const ENDPOINTS: u32 = 32;

/// The endpoint that acknowledges nothing.
const SILENT: u32 = 5;

/// The number of times that the next notification is asked for after an emission: more than a target has observers.
const ASKED: u16 = 520;

/// The moments at which it is asked for once more, in milliseconds: each later than the last timeout of the silent
/// endpoint.
const LATER: [u64; 6] = [3_000, 9_000, 21_000, 45_000, 93_000, 94_000];

/// An endpoint by its number.
fn endpoint(number: u32) -> Endpoint {
    Endpoint {
        host: 1,
        port: (number % (1 << 16)) as u16,
    }
}

/// Registers the observers from a number to another. The endpoint of an observer is a 32nd of its number, and the rest
/// is the token; even numbers are for target 0, odd ones for target 1.
fn register(bodies: &mut Bodies, first: u32, last: u32) -> Result<(), AllocError> {
    for number in first..last {
        let token = (number % ENDPOINTS) as u8;
        bodies.play(Step::Register(endpoint(number / ENDPOINTS), token, number % 2))?;
    }
    Ok(())
}

/// Asks for the next notification, and then all endpoints but the silent one acknowledge the message ID.
fn send(bodies: &mut Bodies, now: u64, id: u16) -> Result<(), AllocError> {
    bodies.play(Step::Send(now, id))?;
    for number in 0..ENDPOINTS {
        if number != SILENT {
            bodies.play(Step::Acknowledge(endpoint(number), id))?;
        }
    }
    Ok(())
}

/// A target has a new value, and all is sent that can be, with message IDs from this one on.
fn emit(bodies: &mut Bodies, target: u32, first: u16) -> Result<(), AllocError> {
    bodies.play(Step::Emit(target))?;
    for number in 0..ASKED {
        send(bodies, 0, first.wrapping_add(number))?;
    }
    Ok(())
}

/// Plays it.
pub fn play(bodies: &mut Bodies) -> Result<(), AllocError> {
    register(bodies, 0, 1_025)?;
    emit(bodies, 0, 1_000)?;
    bodies.play(Step::Register(endpoint(3), 4, 1))?;
    emit(bodies, 1, 2_000)?;
    emit(bodies, 0, 3_000)?;
    for (number, now) in (0..).zip(LATER) {
        send(bodies, now, 4_000u16.wrapping_add(number))?;
    }
    register(bodies, 1_024, 1_057)
}
