//! Bytes that are sent on many connections, and after a pause, come whole, in order and on their own connection.

use crate::listening::{Ports, connected, connected_as, event, listen_on_free_ports, next};
use servient_edge::{MioNet, Net, SystemReal, What};
use std::io::{Read, Write};
use std::net::TcpStream;
use std::test::Fail;
use std::time::{Duration, Instant};

/// Answers the next byte that comes with that byte and the number of its connection.
fn answer(net: &mut MioNet<SystemReal<HostRuntime>>) -> Result<(), Fail> {
    let mut buffer = [0; 4096];
    let What::Bytes(c, 1) = next(net, &mut buffer)? else {
        return Err("no byte came")?;
    };
    net.send(c, buffer.get(..1).unwrap_or(b""), &c.to_le_bytes());
    Ok(())
}

/// Each peer sends its number.
fn send_numbers(peers: &mut Vec<TcpStream>) -> Result<(), Fail> {
    let mut number: u8 = 0;
    for peer in peers.iter_mut() {
        peer.write_all(&[number])?;
        number = number.wrapping_add(1);
    }
    Ok(())
}

/// Each peer gets the answer to its number.
fn get_answers(rt: &HostRuntime, peers: &mut Vec<TcpStream>) -> Result<(), Fail> {
    let mut number: u8 = 0;
    for peer in peers.iter_mut() {
        let mut reply = [0; 5];
        peer.set_read_timeout(Some(Duration::from_secs(10)))?;
        peer.read_exact(&mut reply)?;
        if reply != [number, number, 0, 0, 0] {
            return Err("another reply came")?;
        }
        number = number.wrapping_add(1);
    }
    Ok(())
}

/// Answers each peer.
fn answer_all(net: &mut MioNet<SystemReal<HostRuntime>>, count: u32) -> Result<(), Fail> {
    for _ in 0..count {
        answer(net)?;
    }
    Ok(())
}

fn send_and_answer(
    rt: &HostRuntime,
    net: &mut MioNet<SystemReal<HostRuntime>>,
) -> Result<(), Fail> {
    let ports = listen_on_free_ports(rt, net, 0)?;
    let mut peers = connected(rt, net, ports, 64)?;
    send_numbers(&mut peers)?;
    answer_all(net, 64)?;
    get_answers(rt, &mut peers)
}

#[test]
fn each_of_64_connections_has_its_own_reply(rt: HostRuntime) -> Result<(), Fail> {
    let mut net = MioNet::new(SystemReal::new(rt.clone()?));
    send_and_answer(&rt, &mut net)
}

/// The bytes that are sent: 96 pieces of 65,536 bytes, each of which is its number. Over the loopback a socket takes
/// some 2.5 to 4.3 MB of them where nobody reads, so that more than nothing and no more than 4,194,304 bytes are kept.
const PIECE: u64 = 65_536;

const PIECES: u8 = 96;

const WHOLE: u64 = 6_291_456;

/// The number of ticks for which the peer reads nothing: longer than a closed connection lingers.
const PAUSE: u32 = 4;

/// The most reads.
const READS: u32 = 2500;

/// The place after some bytes, each of which must be that of its place.
fn place_after(bytes: &[u8], place: u64) -> Result<u64, Fail> {
    let mut place = place;
    for byte in bytes {
        if u64::from(*byte) != place / PIECE {
            return Err("another byte came")?;
        }
        place = place.saturating_add(1);
    }
    Ok(place)
}

/// Sends all pieces on a connection.
fn send_pieces(
    rt: &HostRuntime,
    net: &mut MioNet<SystemReal<HostRuntime>>,
    c: u32,
) -> Result<(), Fail> {
    for number in 0..PIECES {
        let piece = vec![in rt.alloc(); number; 65_536]?;
        net.send(c, b"", piece.as_slice());
    }
    Ok(())
}

/// The number of bytes that come, each of which must be that of its place. Between the reads another peer sends a byte,
/// so that the network has something to give.
fn read_pieces(
    net: &mut MioNet<SystemReal<HostRuntime>>,
    peer: &mut TcpStream,
    other: &mut TcpStream,
) -> Result<u64, Fail> {
    let mut buffer = [0; 4096];
    let mut part = [0; 4096];
    let mut place: u64 = 0;
    for _ in 0..READS {
        if let Ok(count) = peer.read(&mut part) {
            if count == 0 {
                return Ok(place);
            }
            place = place_after(part.get(..count).unwrap_or(b""), place)?;
        }
        other.write_all(b"x")?;
        next(net, &mut buffer)?;
    }
    Ok(place)
}

/// Lets some ticks pass in turn.
fn pause(net: &mut MioNet<SystemReal<HostRuntime>>) -> Result<(), Fail> {
    let mut buffer = [0; 4096];
    for _ in 0..PAUSE {
        if event(net, &mut buffer) != Some(What::Tick) {
            return Err("something came")?;
        }
    }
    Ok(())
}

/// Reads after a pause all bytes that were sent before it.
fn read_after_pause(
    rt: &HostRuntime,
    net: &mut MioNet<SystemReal<HostRuntime>>,
    peer: &mut TcpStream,
    other: &mut TcpStream,
) -> Result<(), Fail> {
    send_pieces(rt, net, 0)?;
    net.close(0);
    pause(net)?;
    peer.set_read_timeout(Some(Duration::from_millis(20)))?;
    if read_pieces(net, peer, other)? != WHOLE {
        return Err("not all came")?;
    }
    Ok(())
}

fn connect_and_pause(
    rt: &HostRuntime,
    net: &mut MioNet<SystemReal<HostRuntime>>,
) -> Result<(), Fail> {
    let ports = listen_on_free_ports(rt, net, 0)?;
    let mut peer = connected_as(rt, net, ports, 0)?;
    let mut other = connected_as(rt, net, ports, 1)?;
    read_after_pause(rt, net, &mut peer, &mut other)
}

#[test]
fn a_peer_that_pauses_gets_all_that_was_kept(rt: HostRuntime) -> Result<(), Fail> {
    let mut net = MioNet::new(SystemReal::new(rt.clone()?));
    connect_and_pause(&rt, &mut net)
}

/// The reply comes, and then the end of what is sent.
fn hear_to_the_end(peer: &mut TcpStream) -> Result<(), Fail> {
    let mut reply = [0; 5];
    peer.set_read_timeout(Some(Duration::from_secs(10)))?;
    peer.read_exact(&mut reply)?;
    if reply != *b"reply" || peer.read(&mut reply)? != 0 {
        return Err("another reply came")?;
    }
    Ok(())
}

/// A connection that is closed has its number until its peer had two seconds.
fn connect_again(
    rt: &HostRuntime,
    net: &mut MioNet<SystemReal<HostRuntime>>,
    ports: Ports,
) -> Result<(), Fail> {
    let _second = connected_as(rt, net, ports, 1)?;
    pause(net)?;
    let _third = connected_as(rt, net, ports, 0)?;
    Ok(())
}

fn connect_and_close(
    rt: &HostRuntime,
    net: &mut MioNet<SystemReal<HostRuntime>>,
) -> Result<(), Fail> {
    let ports = listen_on_free_ports(rt, net, 0)?;
    let mut peer = connected_as(rt, net, ports, 0)?;
    net.send(0, b"reply", b"");
    net.close(0);
    hear_to_the_end(&mut peer)?;
    // It is read no further than to be dropped, and nothing comes of it.
    peer.write_all(b"more")?;
    connect_again(rt, net, ports)
}

#[test]
fn a_closed_connection_waits_two_seconds_for_its_peer(rt: HostRuntime) -> Result<(), Fail> {
    let mut net = MioNet::new(SystemReal::new(rt.clone()?));
    connect_and_close(&rt, &mut net)
}

/// Reads until nothing comes for the time that the peer waits, or the end. Each byte must be that of its place, and the
/// place after the last is given.
fn read_on(peer: &mut TcpStream, place: u64) -> Result<u64, Fail> {
    let mut part = [0; 4096];
    let mut place = place;
    for _ in 0..READS {
        match peer.read(&mut part) {
            Ok(0) | Err(_) => return Ok(place),
            Ok(count) => place = place_after(part.get(..count).unwrap_or(b""), place)?,
        }
    }
    Ok(place)
}

/// Ends the run, and gives the milliseconds that this took.
fn finish(rt: &HostRuntime, net: &mut MioNet<SystemReal<HostRuntime>>) -> Result<u128, Fail> {
    let begin = Instant::now(rt)?;
    net.finish();
    Ok(Instant::now(rt)?.duration_since(begin).as_millis())
}

/// A peer that reads gets all, while another never reads.
fn read_to_the_end(
    rt: &HostRuntime,
    net: &mut MioNet<SystemReal<HostRuntime>>,
    peer: &mut TcpStream,
) -> Result<(), Fail> {
    peer.set_read_timeout(Some(Duration::from_millis(100)))?;
    let before = read_on(peer, 0)?;
    if before >= WHOLE {
        return Err("nothing was kept")?;
    }
    let passed = finish(rt, net)?;
    if passed < 1900 || passed >= 5000 {
        return Err("it didn't take two seconds")?;
    }
    peer.set_read_timeout(Some(Duration::from_secs(10)))?;
    if read_on(peer, before)? != WHOLE {
        return Err("not all came")?;
    }
    Ok(())
}

fn connect_and_finish(
    rt: &HostRuntime,
    net: &mut MioNet<SystemReal<HostRuntime>>,
) -> Result<(), Fail> {
    let ports = listen_on_free_ports(rt, net, 0)?;
    let mut peer = connected_as(rt, net, ports, 0)?;
    let _other = connected_as(rt, net, ports, 1)?;
    send_pieces(rt, net, 0)?;
    send_pieces(rt, net, 1)?;
    read_to_the_end(rt, net, &mut peer)
}

fn finish_and_ask(rt: &HostRuntime, net: &mut MioNet<SystemReal<HostRuntime>>) -> Result<(), Fail> {
    let mut buffer = [0; 4096];
    connect_and_finish(rt, net)?;
    if event(net, &mut buffer).is_some() {
        return Err("something comes after the end")?;
    }
    Ok(())
}

#[test]
fn what_is_kept_is_written_at_the_end_for_two_seconds(rt: HostRuntime) -> Result<(), Fail> {
    let mut net = MioNet::new(SystemReal::new(rt.clone()?));
    finish_and_ask(&rt, &mut net)
}
