//! Compares two bodies of observers: `Watchers` of `coap_observe`, whose slots are linked, and a plain list, which was
//! its body before. Both get the same steps: some that are drawn, with room for eight observers, and then those of a
//! full house of 1,024. The answer of each to a step is a line; the lines of both have to be the same. The program
//! prints the counts of answers.
//!
//! The counts that it must print come from `tools/observer-counts`, a third body in another language over the same
//! steps.
#![tactic(auto)]

mod counts;
mod crowd;
mod observer;
mod plain;
mod played;
mod steps;
mod told;

use played::Bodies;
use std::alloc::{AllocError, Global};
use std::io;
use steps::Draws;

/// The number of steps that are drawn.
const STEPS: u32 = 20_000;

/// Plays the steps that are drawn.
fn drawn(alloc: Global) -> Result<Bodies, AllocError> {
    let mut bodies = Bodies::new(alloc, 8)?;
    let mut draws = Draws::new();
    for _number in 0..STEPS {
        bodies.play(draws.step())?;
    }
    Ok(bodies)
}

/// Plays the full house.
fn full_house(alloc: Global) -> Result<Bodies, AllocError> {
    let mut bodies = Bodies::new(alloc, 1_024)?;
    crowd::play(&mut bodies)?;
    Ok(bodies)
}

/// Prints the counts of answers, and whether both said the same.
fn print(rt: HostRuntime, bodies: &Bodies) -> io::Result<()> {
    let counts = counts::of(bodies.lines());
    println!(rt;
        "{} new, {} replaced, {} refused for want of room, {} cancelled",
        counts.new, counts.replaced, counts.full, counts.cancelled,
    )?;
    println!(rt;
        "{} acknowledged, {} reset, {} sent, {} sent again as they were",
        counts.acknowledged, counts.reset, counts.sent, counts.again,
    )?;
    let same = if bodies.are_same() {
        "the same"
    } else {
        "something else"
    };
    println!(rt; "the plain list tells {same}")
}

fn main(rt: HostRuntime) -> io::Result<()> {
    print(rt, &drawn(rt.alloc())?)?;
    print(rt, &full_house(rt.alloc())?)
}
