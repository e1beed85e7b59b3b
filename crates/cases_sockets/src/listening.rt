//! Networks that listen at ports that were free, and their events. Whoever makes a network lends it to its trial, since
//! a function that owns one is dear to prove where it may end early.

use servient_edge::{Listened, MioNet, Net, Next, Place, SystemReal, What};
use std::net::{TcpListener, TcpStream, UdpSocket};
use std::test::Fail;
use wot_json::Text;

/// The most events that are taken until the one that is awaited comes. A tick comes each second.
const PATIENCE: u32 = 20;

/// The number of pairs of ports that are tried.
const TRIES: u32 = 5;

/// The ports at which a network listens.
#[derive(Clone, Copy)]
pub struct Ports {
    pub http: u16,
    pub coap: u16,
}

/// Has a network listen at two ports that were free, and stop after n milliseconds without traffic. They may be taken
/// meanwhile, and then two others are tried.
pub fn listen_on_free_ports(
    rt: &HostRuntime,
    net: &mut MioNet<SystemReal<HostRuntime>>,
    idle: u64,
) -> Result<Ports, Fail> {
    for _ in 0..TRIES {
        let ports = free_ports(rt)?;
        if listens_at(rt, net, ports, idle)? {
            return Ok(ports);
        }
    }
    Err("it doesn't listen")?
}

/// Two ports that are free.
fn free_ports(rt: &HostRuntime) -> Result<Ports, Fail> {
    let http = TcpListener::bind(rt, "127.0.0.1:0")?.local_addr()?.port();
    let coap = UdpSocket::bind(rt, "127.0.0.1:0")?.local_addr()?.port();
    Ok(Ports { http, coap })
}

/// Has a network listen at these ports, if they are still free.
fn listens_at(
    rt: &HostRuntime,
    net: &mut MioNet<SystemReal<HostRuntime>>,
    ports: Ports,
    idle: u64,
) -> Result<bool, Fail> {
    let place = Place {
        http_host: Text::copy_of(rt.alloc(), "127.0.0.1")?,
        http_port: ports.http,
        coap_host: Text::copy_of(rt.alloc(), "localhost")?,
        coap_port: ports.coap,
        idle,
    };
    listens_once(rt, net, &place)
}

/// Whether it listens there. It doesn't twice.
fn listens_once(
    rt: &HostRuntime,
    net: &mut MioNet<SystemReal<HostRuntime>>,
    place: &Place,
) -> Result<bool, Fail> {
    if net.listen(rt.alloc(), place) != Listened::Ready {
        return Ok(false);
    }
    if net.listen(rt.alloc(), place) != Listened::Failed {
        return Err("it listens twice")?;
    }
    Ok(true)
}

/// The next event, if the network doesn't fail. It has no clause, so that its callers are proved without those of
/// `next` on numbers, at which they don't look.
pub fn event(net: &mut MioNet<SystemReal<HostRuntime>>, buffer: &mut [u8; 4096]) -> Option<What> {
    match net.next(buffer) {
        Next::Got(event) => Some(event.what),
        Next::Failed => None,
    }
}

/// The next event but ticks.
pub fn next(
    net: &mut MioNet<SystemReal<HostRuntime>>,
    buffer: &mut [u8; 4096],
) -> Result<What, Fail> {
    for _ in 0..PATIENCE {
        match event(net, buffer) {
            Some(What::Tick) => {}
            Some(what) => return Ok(what),
            None => return Err("the network failed")?,
        }
    }
    Err("nothing came")?
}

/// The next event but ticks is this.
pub fn expect(net: &mut MioNet<SystemReal<HostRuntime>>, what: What) -> Result<(), Fail> {
    let mut buffer = [0; 4096];
    if next(net, &mut buffer)? != what {
        return Err("something else came")?;
    }
    Ok(())
}

/// One more connection, which has this number.
pub fn connected_as(
    rt: &HostRuntime,
    net: &mut MioNet<SystemReal<HostRuntime>>,
    ports: Ports,
    c: u32,
) -> Result<TcpStream, Fail> {
    let peer = TcpStream::connect(rt, ("127.0.0.1", ports.http))?;
    expect(net, What::Opened(c))?;
    Ok(peer)
}

/// So many connections, which have the numbers from 0 on.
pub fn connected(
    rt: &HostRuntime,
    net: &mut MioNet<SystemReal<HostRuntime>>,
    ports: Ports,
    count: u32,
) -> Result<Vec<TcpStream>, Fail> {
    let mut peers = Vec::new(rt.alloc());
    for c in 0..count {
        let peer = connected_as(rt, net, ports, c)?;
        peers.push(peer)?;
    }
    Ok(peers)
}
