//! Everybody has a share: ticks, connections and datagrams.

use crate::listening::{connected, connected_as, event, listen_on_free_ports};
use servient_edge::{MioNet, SystemReal, What};
use std::io::Write;
use std::net::{TcpStream, UdpSocket};
use std::test::Fail;
use std::thread::sleep;
use std::time::{Duration, Instant};

/// The events so far.
#[derive(Drop)]
struct Counts {
    ticks: u32,
    bytes: u32,
    datagrams: u32,
}

/// The milliseconds for which each tick is served: longer than a second, after which another is due.
const SLOW: u64 = 1500;

/// Takes an event and serves it: a tick slowly, and to all else its peer sends something more.
fn serve(
    rt: &HostRuntime,
    net: &mut MioNet<SystemReal<HostRuntime>>,
    stream: &mut TcpStream,
    socket: &UdpSocket,
    counts: &mut Counts,
) -> Result<(), Fail> {
    let mut buffer = [0; 4096];
    match event(net, &mut buffer) {
        None => return Err("the network failed")?,
        Some(What::Tick) => {
            counts.ticks = counts.ticks.saturating_add(1);
            sleep(rt, Duration::from_millis(SLOW));
        }
        Some(What::Bytes(_, _)) => {
            counts.bytes = counts.bytes.saturating_add(1);
            stream.write_all(b"x")?;
        }
        _ => {
            counts.datagrams = counts.datagrams.saturating_add(1);
            socket.send(b"x")?;
        }
    }
    Ok(())
}

/// A socket whose datagrams go to this port.
fn socket_to(rt: &HostRuntime, coap: u16) -> Result<UdpSocket, Fail> {
    let socket = UdpSocket::bind(rt, "127.0.0.1:0")?;
    socket.connect(("127.0.0.1", coap))?;
    Ok(socket)
}

/// Serves until three ticks came. After each of them something else comes.
fn serve_three_ticks(
    rt: &HostRuntime,
    net: &mut MioNet<SystemReal<HostRuntime>>,
    stream: &mut TcpStream,
    socket: &UdpSocket,
    counts: &mut Counts,
) -> Result<(), Fail> {
    for _ in 0..600 {
        let before = counts.ticks;
        serve(rt, net, stream, socket, counts)?;
        if counts.ticks == before {
            sleep(rt, Duration::from_millis(10));
        } else {
            serve(rt, net, stream, socket, counts)?;
            if counts.ticks != before.saturating_add(1) {
                return Err("two ticks came in a row")?;
            }
        }
        if counts.ticks == 3 {
            return Ok(());
        }
    }
    Err("three ticks didn't come")?
}

fn serve_slowly(rt: &HostRuntime, net: &mut MioNet<SystemReal<HostRuntime>>) -> Result<(), Fail> {
    let ports = listen_on_free_ports(rt, net, 0)?;
    let mut stream = connected_as(rt, net, ports, 0)?;
    let socket = socket_to(rt, ports.coap)?;
    let mut counts = Counts {
        ticks: 0,
        bytes: 0,
        datagrams: 0,
    };
    stream.write_all(b"x")?;
    socket.send(b"x")?;
    serve_three_ticks(rt, net, &mut stream, &socket, &mut counts)?;
    if counts.bytes <= 20 || counts.datagrams <= 20 {
        return Err("too little came beside the ticks")?;
    }
    Ok(())
}

#[test]
fn slow_ticks_leave_room_for_all_else(rt: HostRuntime) -> Result<(), Fail> {
    let mut net = MioNet::new(SystemReal::new(rt.clone()?));
    serve_slowly(&rt, &mut net)
}

/// The number of connections that have something, beside a flood.
const OTHERS: u32 = 20;

/// The most events that are taken until each of them was heard: 8 datagrams before each. Nobody waits for a second.
const EVENTS: u32 = 200;

/// Each peer sends a byte.
fn write_to_all(peers: &mut Vec<TcpStream>) -> Result<(), Fail> {
    for peer in peers.iter_mut() {
        peer.write_all(b"x")?;
    }
    Ok(())
}

/// The number of connections that were heard while a datagram came before each event.
fn heard_beside(
    net: &mut MioNet<SystemReal<HostRuntime>>,
    socket: &UdpSocket,
) -> Result<u32, Fail> {
    let mut buffer = [0; 4096];
    let mut heard: u32 = 0;
    for _ in 0..EVENTS {
        socket.send(b"x")?;
        if let Some(What::Bytes(_, _)) = event(net, &mut buffer) {
            heard = heard.saturating_add(1);
        }
    }
    Ok(heard)
}

/// All are heard within a second.
fn hear_all(
    rt: &HostRuntime,
    net: &mut MioNet<SystemReal<HostRuntime>>,
    socket: &UdpSocket,
) -> Result<(), Fail> {
    let begin = Instant::now(rt)?;
    if heard_beside(net, socket)? != OTHERS {
        return Err("not all were heard")?;
    }
    let passed = Instant::now(rt)?.duration_since(begin).as_millis();
    if passed >= 1000 {
        return Err("somebody waited for a second")?;
    }
    Ok(())
}

fn flood(rt: &HostRuntime, net: &mut MioNet<SystemReal<HostRuntime>>) -> Result<(), Fail> {
    let ports = listen_on_free_ports(rt, net, 0)?;
    let mut peers = connected(rt, net, ports, OTHERS)?;
    let socket = socket_to(rt, ports.coap)?;
    write_to_all(&mut peers)?;
    for _ in 0..100 {
        socket.send(b"x")?;
    }
    hear_all(rt, net, &socket)
}

#[test]
fn a_flood_of_datagrams_holds_nobody_up(rt: HostRuntime) -> Result<(), Fail> {
    let mut net = MioNet::new(SystemReal::new(rt.clone()?));
    flood(&rt, &mut net)
}
