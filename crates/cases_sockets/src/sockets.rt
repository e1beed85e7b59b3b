//! The network over the sockets of the machine: connections beyond its numbers, datagrams, and peers that don't read.

use crate::listening::{Ports, connected_as, event, expect, listen_on_free_ports, next};
use servient_edge::{MioNet, Net, SystemReal, What};
use std::io::Read;
use std::net::{TcpStream, UdpSocket};
use std::test::Fail;
use std::time::Duration;

/// The number of ticks in turn that show that nothing more is opened.
const QUIET: u32 = 3;

/// The number of connections that are opened until n ticks come in turn.
fn opened(net: &mut MioNet<SystemReal<HostRuntime>>, buffer: &mut [u8; 4096]) -> u32 {
    let mut count: u32 = 0;
    let mut ticks: u32 = 0;
    for _ in 0..200 {
        match event(net, buffer) {
            Some(What::Tick) => {
                ticks = ticks.saturating_add(1);
                if ticks == QUIET {
                    return count;
                }
            }
            Some(_) => {
                count = count.saturating_add(1);
                ticks = 0;
            }
            None => return count,
        }
    }
    count
}

/// Some more connections, which nobody waits for.
fn connect_more(rt: &HostRuntime, ports: Ports, count: u32) -> Result<Vec<TcpStream>, Fail> {
    let mut peers = Vec::new(rt.alloc());
    for _ in 0..count {
        let peer = TcpStream::connect(rt, ("127.0.0.1", ports.http))?;
        peers.push(peer)?;
    }
    Ok(peers)
}

/// Opens one connection and 64 more, and ends the first.
fn fill(
    rt: &HostRuntime,
    net: &mut MioNet<SystemReal<HostRuntime>>,
    ports: Ports,
) -> Result<Vec<TcpStream>, Fail> {
    let mut buffer = [0; 4096];
    let _first = connected_as(rt, net, ports, 0)?;
    let others = connect_more(rt, ports, 64)?;
    if opened(net, &mut buffer) != 63 {
        return Err("not 64 have a number")?;
    }
    Ok(others)
}

fn fill_and_free(rt: &HostRuntime, net: &mut MioNet<SystemReal<HostRuntime>>) -> Result<(), Fail> {
    let ports = listen_on_free_ports(rt, net, 0)?;
    let _others = fill(rt, net, ports)?;
    expect(net, What::Ended(0))?;
    expect(net, What::Opened(0))
}

#[test]
fn a_65th_connection_waits_for_a_number(rt: HostRuntime) -> Result<(), Fail> {
    let mut net = MioNet::new(SystemReal::new(rt.clone()?));
    fill_and_free(&rt, &mut net)
}

/// A datagram that is too long, and one that is answered.
fn ask_by_datagram(
    rt: &HostRuntime,
    net: &mut MioNet<SystemReal<HostRuntime>>,
    peer: &UdpSocket,
    coap: u16,
) -> Result<(), Fail> {
    let mut buffer = [0; 4096];
    peer.send_to(&[7; 2049], ("127.0.0.1", coap))?;
    peer.send_to(b"ask", ("127.0.0.1", coap))?;
    let What::Datagram(from, count) = next(net, &mut buffer)? else {
        return Err("no datagram came")?;
    };
    if count != 3 || !buffer.starts_with(b"ask") {
        return Err("another datagram came")?;
    }
    net.datagram(from, b"answer");
    Ok(())
}

fn ask_and_stop(rt: &HostRuntime, net: &mut MioNet<SystemReal<HostRuntime>>) -> Result<(), Fail> {
    let ports = listen_on_free_ports(rt, net, 5000)?;
    let peer = UdpSocket::bind(rt, "127.0.0.1:0")?;
    peer.set_read_timeout(Some(Duration::from_secs(10)))?;
    ask_by_datagram(rt, net, &peer, ports.coap)?;
    let mut answer = [0; 16];
    if peer.recv(&mut answer)? != 6 || !answer.starts_with(b"answer") {
        return Err("another answer came")?;
    }
    expect(net, What::Stop)
}

#[test]
fn datagrams_come_and_go_until_traffic_ends(rt: HostRuntime) -> Result<(), Fail> {
    let mut net = MioNet::new(SystemReal::new(rt.clone()?));
    ask_and_stop(&rt, &mut net)
}

/// The number of bytes that are sent at once to a peer that doesn't read, and the number of times.
const PIECE: usize = 1_048_576;

const PIECES: u32 = 64;

/// Sends more to a peer than is kept.
fn send_too_much(rt: &HostRuntime, net: &mut MioNet<SystemReal<HostRuntime>>) -> Result<(), Fail> {
    let piece = vec![in rt.alloc(); 7u8; PIECE]?;
    for _ in 0..PIECES {
        net.send(0, b"head", piece.as_slice());
    }
    expect(net, What::Ended(0))
}

/// Its number is that of another connection, for which the bytes that are sent now are meant.
fn connect_another(
    rt: &HostRuntime,
    net: &mut MioNet<SystemReal<HostRuntime>>,
    ports: Ports,
) -> Result<(), Fail> {
    let _other = connected_as(rt, net, ports, 0)?;
    net.send(0, b"h", b"b");
    net.close(0);
    Ok(())
}

fn read_too_late(rt: &HostRuntime, net: &mut MioNet<SystemReal<HostRuntime>>) -> Result<(), Fail> {
    let ports = listen_on_free_ports(rt, net, 0)?;
    let mut peer = connected_as(rt, net, ports, 0)?;
    send_too_much(rt, net)?;
    connect_another(rt, net, ports)?;
    peer.set_read_timeout(Some(Duration::from_secs(10)))?;
    let mut part = [0; 4];
    if peer.read(&mut part)? != 4 || !part.starts_with(b"head") {
        return Err("something else came")?;
    }
    Ok(())
}

#[test]
fn a_peer_that_never_reads_loses_its_connection(rt: HostRuntime) -> Result<(), Fail> {
    let mut net = MioNet::new(SystemReal::new(rt.clone()?));
    read_too_late(&rt, &mut net)
}
