//! Connections that are opened from here.

use crate::listening::{event, expect, listen_on_free_ports};
use servient_edge::{Dialled, Found, MioNet, Net, SystemReal, What};
use std::net::TcpListener;
use std::test::Fail;

/// The most events that are taken until the one that is awaited comes.
const PATIENCE: u32 = 20;

/// The answer to dialling. It has no clause, so that its callers are proved without those of `dial`, as with `event`.
fn dialled(
    rt: &HostRuntime,
    net: &mut MioNet<SystemReal<HostRuntime>>,
    host: &str,
    port: u16,
) -> Dialled {
    net.dial(rt.alloc(), host, port)
}

/// Whether a connection that was dialled ends before much else comes.
fn ends(net: &mut MioNet<SystemReal<HostRuntime>>, c: u32) -> bool {
    let mut buffer = [0; 4096];
    for _ in 0..PATIENCE {
        if event(net, &mut buffer) == Some(What::Ended(c)) {
            return true;
        }
    }
    false
}

/// A peer that has bytes that it hasn't read when it goes, so that the system resets the connection.
fn accept_and_go(listener: &TcpListener) -> Result<(), Fail> {
    let (_peer, _from) = listener.accept()?;
    Ok(())
}

/// Dials a peer that listens, and ends it.
fn dial_and_end(
    rt: &HostRuntime,
    net: &mut MioNet<SystemReal<HostRuntime>>,
    listener: &TcpListener,
    port: u16,
) -> Result<(), Fail> {
    let mut buffer = [0; 4096];
    if event(net, &mut buffer).is_some() {
        return Err("something comes before it dials")?;
    }
    if dialled(rt, net, "localhost", port) != Dialled::Connected(0) {
        return Err("it isn't connected")?;
    }
    net.send(0, b"unread", b"");
    accept_and_go(listener)?;
    if !ends(net, 0) {
        return Err("the connection doesn't end")?;
    }
    Ok(())
}

/// Dials a peer by its name, which listens no longer afterwards.
fn dial_by_name(rt: &HostRuntime, net: &mut MioNet<SystemReal<HostRuntime>>) -> Result<u16, Fail> {
    let listener = TcpListener::bind(rt, "127.0.0.1:0")?;
    let port = listener.local_addr()?.port();
    dial_and_end(rt, net, &listener, port)?;
    Ok(port)
}

fn dial_twice(rt: &HostRuntime, net: &mut MioNet<SystemReal<HostRuntime>>) -> Result<(), Fail> {
    let port = dial_by_name(rt, net)?;
    if dialled(rt, net, "localhost", port) != Dialled::Failed {
        return Err("nobody listens there")?;
    }
    Ok(())
}

#[test]
fn a_name_with_two_addresses_is_reached_and_may_end(rt: HostRuntime) -> Result<(), Fail> {
    let mut net = MioNet::new(SystemReal::new(rt.clone()?));
    dial_twice(&rt, &mut net)
}

/// The most connections that wait at a listener, with those that the system lets wait besides.
const WAITING: u32 = 192;

/// The number of connections that a network has.
const NUMBERS: u32 = 64;

/// Dials once more: from a network that has a number left, if so many dialled before.
fn dial_once_more(
    rt: &HostRuntime,
    nets: &mut Vec<MioNet<SystemReal<HostRuntime>>>,
    before: u32,
    port: u16,
) -> Result<Dialled, Fail> {
    if before % NUMBERS == 0 {
        nets.push(MioNet::new(SystemReal::new(rt.clone()?)))?;
    }
    match nets.last_mut() {
        Some(net) => Ok(dialled(rt, net, "127.0.0.1", port)),
        None => Err("there is a network")?,
    }
}

/// Dials until it fails.
fn dial_until_it_fails(
    rt: &HostRuntime,
    nets: &mut Vec<MioNet<SystemReal<HostRuntime>>>,
    port: u16,
) -> Result<(), Fail> {
    for before in 0..WAITING {
        match dial_once_more(rt, nets, before, port)? {
            Dialled::Connected(_) => {}
            Dialled::NoMemory => return Err("out of memory")?,
            Dialled::Failed => return Ok(()),
        }
    }
    Err("all are connected")?
}

#[test]
fn a_peer_that_never_accepts_fails_after_ten_seconds(rt: HostRuntime) -> Result<(), Fail> {
    let listener = TcpListener::bind(&rt, "127.0.0.1:0")?;
    let port = listener.local_addr()?.port();
    let mut nets = Vec::new(rt.alloc());
    dial_until_it_fails(&rt, &mut nets, port)
}

/// Looks a host up, and dials: its second has begun, and there is no end without listening.
fn find_and_dial(
    rt: &HostRuntime,
    net: &mut MioNet<SystemReal<HostRuntime>>,
    port: u16,
) -> Result<(), Fail> {
    let mut buffer = [0; 4096];
    let Found::At(_) = net.find(rt.alloc(), "localhost", port) else {
        return Err("the host isn't found")?;
    };
    if event(net, &mut buffer) != Some(What::Tick) {
        return Err("no tick came")?;
    }
    if dialled(rt, net, "127.0.0.1", port) != Dialled::Connected(0) {
        return Err("it isn't connected")?;
    }
    Ok(())
}

fn listen_after_dialling(
    rt: &HostRuntime,
    net: &mut MioNet<SystemReal<HostRuntime>>,
) -> Result<(), Fail> {
    let listener = TcpListener::bind(rt, "127.0.0.1:0")?;
    let port = listener.local_addr()?.port();
    find_and_dial(rt, net, port)?;
    let _ports = listen_on_free_ports(rt, net, 500)?;
    expect(net, What::Stop)
}

#[test]
fn it_may_listen_after_it_has_looked_up_and_dialled(rt: HostRuntime) -> Result<(), Fail> {
    let mut net = MioNet::new(SystemReal::new(rt.clone()?));
    listen_after_dialling(&rt, &mut net)
}
