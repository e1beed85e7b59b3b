//! The system of the machine, over mio and std: each call is one of theirs, or two. No contract says what a socket gives
//! or takes, so that it records nothing. It alone is trusted of the network.

use crate::addresses::{NO_ADDRESS, address_of, endpoint_of};
use crate::mio_net::NOT_READY;
use crate::turns::{CONNECTIONS, DATAGRAMS, LISTENER};
use coap_msg::Endpoint;
use mio::net::{TcpListener, TcpStream, UdpSocket};
use mio::{Events, Interest, Poll, Token};
use servient_system::{Arrived, MOST_READY, Ready, Refusal, System};
use std::alloc::{AllocError, Global};
use std::io::{IoSlice, Read};
use std::net::{self, Shutdown, ToSocketAddrs};
use std::rt::Clock;
use std::time::{Duration, Instant};

/// The sockets of the machine, and what waits for them.
#[derive(Drop)]
struct RealSockets {
    poll: Poll,
    // Nothing is registered there: it waits for time alone.
    timer: Poll,
    // The connection that was dialled last is registered there, until one is attached or given up.
    dialling: Option<Poll>,
    events: Events,
    listener: Option<TcpListener>,
    udp: Option<UdpSocket>,
    streams: Vec<Option<TcpStream>>,
}

/// The system of the machine.
#[derive(Drop)]
pub struct SystemReal<R: net::Net + Clock + Drop> {
    rt: R,
    // None where the clock failed.
    start: Option<Instant>,
    // Since it is ready for sockets.
    sockets: Option<RealSockets>,
}

impl<R: net::Net + Clock + Drop> SystemReal<R> {
    /// The system of this runtime. Its clock counts from now.
    pub fn new(rt: R) -> SystemReal<R> {
        SystemReal {
            start: Instant::now(&rt).ok(),
            rt,
            sockets: None,
        }
    }
}

/// No connections yet.
fn no_streams(alloc: Global) -> Result<Vec<Option<TcpStream>>, AllocError> {
    let mut streams = Vec::with_capacity(alloc, CONNECTIONS)?;
    for _ in 0..CONNECTIONS {
        streams.push(None)?;
    }
    Ok(streams)
}

/// No sockets yet, and what waits for them.
fn made<R: net::Net>(rt: &R, alloc: Global) -> Result<RealSockets, Refusal> {
    Ok(RealSockets {
        streams: no_streams(alloc)?,
        poll: Poll::new(rt)?,
        timer: Poll::new(rt)?,
        dialling: None,
        events: Events::with_capacity(alloc, MOST_READY)?,
        listener: None,
        udp: None,
    })
}

/// The sockets, where it is ready for them.
fn sockets_of(sockets: &mut Option<RealSockets>) -> Result<&mut RealSockets, Refusal> {
    sockets.as_mut().ok_or(NOT_READY)
}

/// The connection of a number.
fn stream_of(streams: &mut Vec<Option<TcpStream>>, number: u32) -> Result<&mut TcpStream, Refusal> {
    match streams.get_mut(number as usize) {
        Some(Some(stream)) => Ok(stream),
        _ => Err(NOT_READY),
    }
}

/// This is the connection of a number.
fn put(streams: &mut Vec<Option<TcpStream>>, number: u32, stream: Option<TcpStream>) {
    if let Some(place) = streams.get_mut(number as usize) {
        *place = stream;
    }
}

impl<R: net::Net + Clock + Drop> System for SystemReal<R> {
    ghost use Rattle.std.specs.Prelude.{None};

    ghost asked = { λ _. None };

    fn prepare(&mut self, alloc: Global) -> Result<(), Refusal> {
        if self.sockets.is_none() {
            self.sockets = Some(made(&self.rt, alloc)?);
        }
        Ok(())
    }

    fn now(&mut self) -> Result<u64, Refusal> {
        let start = self.start.ok_or(NOT_READY)?;
        let passed = Instant::now(&self.rt)?.duration_since(start).as_nanos();
        Ok(passed.min(u64::MAX as u128) as u64)
    }

    fn poll(&mut self, wait: u64, ready: &mut Ready) -> Result<(), Refusal> {
        ready.clear();
        let sockets = sockets_of(&mut self.sockets)?;
        let wait = Some(Duration::from_millis(wait));
        sockets.poll.poll(&mut sockets.events, wait)?;
        for event in sockets.events.iter() {
            let Token(number) = event.token();
            ready.add(u32::try_from(number).unwrap_or(u32::MAX));
        }
        Ok(())
    }

    fn pause(&mut self, wait: u64) -> Result<(), Refusal> {
        let sockets = sockets_of(&mut self.sockets)?;
        let wait = Some(Duration::from_millis(wait));
        sockets.timer.poll(&mut sockets.events, wait)?;
        Ok(())
    }

    fn resolve(&mut self, host: &str, port: u16) -> Result<Endpoint, Refusal> {
        for address in (host, port).to_socket_addrs(&self.rt)? {
            if address.is_ipv4() {
                return Ok(endpoint_of(address));
            }
        }
        Err(NO_ADDRESS)
    }

    fn listen(&mut self, at: Endpoint) -> Result<(), Refusal> {
        let sockets = sockets_of(&mut self.sockets)?;
        let mut listener = TcpListener::bind(&self.rt, address_of(at)?)?;
        let registry = sockets.poll.registry();
        registry.register(&mut listener, Token(LISTENER), Interest::READABLE)?;
        sockets.listener = Some(listener);
        Ok(())
    }

    fn bind(&mut self, at: Endpoint) -> Result<(), Refusal> {
        let sockets = sockets_of(&mut self.sockets)?;
        let mut udp = UdpSocket::bind(&self.rt, address_of(at)?)?;
        let registry = sockets.poll.registry();
        registry.register(&mut udp, Token(DATAGRAMS), Interest::READABLE)?;
        sockets.udp = Some(udp);
        Ok(())
    }

    fn accept(&mut self, number: u32) -> Result<(), Refusal> {
        let sockets = sockets_of(&mut self.sockets)?;
        let Some(listener) = &sockets.listener else {
            return Err(NOT_READY);
        };
        let (stream, _from) = listener.accept()?;
        put(&mut sockets.streams, number, Some(stream));
        Ok(())
    }

    fn dial(&mut self, number: u32, to: Endpoint) -> Result<(), Refusal> {
        let sockets = sockets_of(&mut self.sockets)?;
        let poll = Poll::new(&self.rt)?;
        let mut stream = TcpStream::connect(&self.rt, address_of(to)?)?;
        let registry = poll.registry();
        registry.register(&mut stream, Token(0), Interest::WRITABLE)?;
        sockets.dialling = Some(poll);
        put(&mut sockets.streams, number, Some(stream));
        Ok(())
    }

    fn poll_dialled(&mut self, wait: u64) -> Result<bool, Refusal> {
        let sockets = sockets_of(&mut self.sockets)?;
        let Some(poll) = &mut sockets.dialling else {
            return Err(NOT_READY);
        };
        poll.poll(&mut sockets.events, Some(Duration::from_millis(wait)))?;
        Ok(!sockets.events.is_empty())
    }

    fn connected(&mut self, number: u32) -> Result<(), Refusal> {
        let stream = stream_of(&mut sockets_of(&mut self.sockets)?.streams, number)?;
        if let Some(error) = stream.take_error()? {
            return Err(Refusal::from(error));
        }
        let _peer = stream.peer_addr()?;
        Ok(())
    }

    fn attach(&mut self, number: u32) -> Result<(), Refusal> {
        let sockets = sockets_of(&mut self.sockets)?;
        sockets.dialling = None;
        let stream = stream_of(&mut sockets.streams, number)?;
        stream.set_nodelay(true)?;
        let both = Interest::READABLE | Interest::WRITABLE;
        let registry = sockets.poll.registry();
        Ok(registry.register(stream, Token(number as usize), both)?)
    }

    fn read(&mut self, number: u32, buffer: &mut [u8]) -> Result<usize, Refusal> {
        let stream = stream_of(&mut sockets_of(&mut self.sockets)?.streams, number)?;
        Ok(stream.read(buffer)?)
    }

    fn write(&mut self, number: u32, head: &[u8], body: &[u8]) -> Result<usize, Refusal> {
        let stream = stream_of(&mut sockets_of(&mut self.sockets)?.streams, number)?;
        Ok(stream.write_vectored(&[IoSlice::new(head), IoSlice::new(body)])?)
    }

    fn shut_down(&mut self, number: u32) -> Result<(), Refusal> {
        let stream = stream_of(&mut sockets_of(&mut self.sockets)?.streams, number)?;
        Ok(stream.shutdown(Shutdown::Write)?)
    }

    fn give_up(&mut self, number: u32) {
        if let Some(sockets) = &mut self.sockets {
            sockets.dialling = None;
            match number as usize {
                LISTENER => sockets.listener = None,
                DATAGRAMS => sockets.udp = None,
                _ => put(&mut sockets.streams, number, None),
            }
        }
    }

    fn receive(&mut self, buffer: &mut [u8]) -> Result<Arrived, Refusal> {
        let Some(udp) = &sockets_of(&mut self.sockets)?.udp else {
            return Err(NOT_READY);
        };
        let (count, from) = udp.recv_from(buffer)?;
        let from = endpoint_of(from);
        Ok(Arrived { from, count })
    }

    fn send_to(&mut self, to: Endpoint, bytes: &[u8]) -> Result<(), Refusal> {
        let Some(udp) = &sockets_of(&mut self.sockets)?.udp else {
            return Err(NOT_READY);
        };
        let _count = udp.send_to(bytes, address_of(to)?)?;
        Ok(())
    }
}
