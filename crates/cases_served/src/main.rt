//! A stored run over sockets. The program starts itself as a child that serves a plan, writes and reads a property of
//! the shipped rack over TCP and UDP, and prints the replies, and the end of the child once no traffic came for five
//! seconds. Meanwhile a child asks it over CoAP for its Things, and further children consume the one: one writes the
//! property over CoAP, and two read it, over CoAP and over HTTP; three write a text of 1,000 bytes each, and one reads
//! all properties, which come in blocks. By the description that is derived, each affordance is consumed over HTTP: each
//! property is written and read, the action is invoked, and all properties are read. Then a child that may open no more
//! than 24 files is spoken to beside 30 connections that do nothing. Last a child checks a Thing Description without a
//! `title`, which ends with a status that isn't 0.
//!
//! With words of its own it is the servient; without any it is the run.
#![tactic(auto)]

use std::io::{Read, Write};
use std::net::{TcpListener, TcpStream, UdpSocket};
use std::process::{Child, Command, ExitCode, Output, Stdio};
use std::thread::sleep;
use std::time::Duration;
use std::{env, fs, io, str};

/// The number of tries of a connection, and the milliseconds between them, since the child may not listen yet.
const TRIES: u32 = 100;

const PAUSE: u64 = 100;

/// The number of times that the child is started, since a port that was free may be taken meanwhile.
const STARTS: u32 = 5;

/// The number of connections that are opened to a child that may have no more than 24 files, and the milliseconds for
/// which they are left, so that its listener fails again at a tick.
const CROWD: u32 = 30;

const CROWDED: u64 = 1500;

/// The seconds for which an answer is awaited.
const PATIENCE: u64 = 10;

/// The model of the Thing that is served.
const MODEL: &str =
    "{\"@context\":\"https://www.w3.org/2022/wot/td/v1.1\",\"@type\":\"tm:ThingModel\",\"title\":\"Lamp\",\"properties\":{\"level\":{\"type\":\"integer\"},\"a\":{\"type\":\"string\"},\"b\":{\"type\":\"string\"},\"c\":{\"type\":\"string\"}},\"actions\":{\"fade\":{\"input\":{\"type\":\"integer\"},\"output\":{\"type\":\"integer\"}}}}";

/// The number of bytes of each of the texts.
const TEXT_BYTES: u32 = 1000;

/// The whole requests by HTTP (RFC 9112): the second closes its connection.
const WRITE: &[u8] =
    b"PUT /lamp/properties/level HTTP/1.1\r\nHost: localhost\r\nContent-Type: application/json\r\nContent-Length: 2\r\nConnection: close\r\n\r\n42";

const READ: &[u8] =
    b"GET /lamp/properties/level HTTP/1.1\r\nHost: localhost\r\nConnection: close\r\n\r\n";

/// A Confirmable GET by CoAP of the same property, message ID 1 (RFC 7252, section 3).
const ASK: &[u8] = b"\x40\x01\x00\x01\xb4lamp\x0aproperties\x05level";

fn main(rt: HostRuntime) -> ExitCode {
    match env::args(&rt) {
        Ok(words) => {
            if words.count() > 1 {
                servient_program::run(&rt)
            } else {
                ended(&rt, run(&rt))
            }
        }
        Err(_) => ExitCode::FAILURE,
    }
}

/// The run, which fails where the system does.
fn run(rt: &HostRuntime) -> io::Result<()> {
    serve_few(rt)?;
    serve_many(rt)?;
    refuse(rt)
}

/// A child is spoken to.
fn serve_few(rt: &HostRuntime) -> io::Result<()> {
    for _ in 0..STARTS {
        if speak(rt)? {
            return Ok(());
        }
    }
    Err(io::Error::from(io::ErrorKind::AddrInUse))
}

/// A child with few files is spoken to beside many connections.
fn serve_many(rt: &HostRuntime) -> io::Result<()> {
    for _ in 0..STARTS {
        if crowd(rt)? {
            return Ok(());
        }
    }
    Err(io::Error::from(io::ErrorKind::AddrInUse))
}

/// The end of the run.
fn ended(rt: &HostRuntime, outcome: io::Result<()>) -> ExitCode {
    match outcome {
        Ok(()) => ExitCode::SUCCESS,
        Err(error) => {
            let _ = println!(rt; "failed: {error}");
            ExitCode::FAILURE
        }
    }
}

/// Starts the child on two ports that are free, speaks to it, and prints the replies; false: a port was taken
/// meanwhile.
fn speak(rt: &HostRuntime) -> io::Result<bool> {
    let http = free_tcp_port(rt)?;
    let coap = free_udp_port(rt)?;
    fs::write(rt, "level.tm.json", MODEL)?;
    fs::write(rt, "level.plan.json", plan(rt, http, coap)?.as_str())?;
    let mut child = start(rt)?;
    let written = match connected(rt, http, &mut child)? {
        Some(stream) => exchange(rt, stream, WRITE)?,
        None => return ended_early(rt, child),
    };
    let read = exchange(rt, TcpStream::connect(rt, ("127.0.0.1", http))?, READ)?;
    let mut answer = [0u8; 2048];
    let size = ask(rt, coap, &mut answer)?;
    discover(rt, coap)?;
    consume(rt, http, coap)?;
    let answer = answer.get(..size).unwrap_or(b"");
    end(rt, child, written.as_slice(), read.as_slice(), answer)?;
    Ok(true)
}

/// The child ended before it listened: false where its network failed, since a port may have been taken.
fn ended_early(rt: &HostRuntime, child: Child) -> io::Result<bool> {
    let output = child.wait_with_output(rt.alloc())?;
    if output.status.code() == Some(6) {
        return Ok(false);
    }
    print_end(rt, &output)?;
    Err(io::Error::from(io::ErrorKind::Other))
}

/// A port that is free for TCP.
fn free_tcp_port(rt: &HostRuntime) -> io::Result<u16> {
    Ok(TcpListener::bind(rt, "127.0.0.1:0")?.local_addr()?.port())
}

/// A port that is free for UDP.
fn free_udp_port(rt: &HostRuntime) -> io::Result<u16> {
    Ok(UdpSocket::bind(rt, "127.0.0.1:0")?.local_addr()?.port())
}

/// The plan of one Thing at these ports, whose property is a cell of the shipped rack.
fn plan(rt: &HostRuntime, http: u16, coap: u16) -> io::Result<String> {
    Ok(format!(in rt.alloc();
        "{{\"name\":\"lamp\",\"id\":\"urn:x:lamp\",\"http\":\"http://127.0.0.1:{http}\",\"coap\":\"coap://127.0.0.1:{coap}\",\"model\":\"https://models.example/level.tm.json\",\"models\":[{{\"url\":\"https://models.example/level.tm.json\",\"file\":\"level.tm.json\"}}],\"slots\":[{{\"thing\":\"lamp\",\"pointer\":\"/properties/level\",\"slot\":0}},{{\"thing\":\"lamp\",\"pointer\":\"/properties/a\",\"slot\":2}},{{\"thing\":\"lamp\",\"pointer\":\"/properties/b\",\"slot\":6}},{{\"thing\":\"lamp\",\"pointer\":\"/properties/c\",\"slot\":10}},{{\"thing\":\"lamp\",\"pointer\":\"/actions/fade\",\"slot\":32}}]}}"
    )?)
}

/// The path of the program.
fn own_path(rt: &HostRuntime) -> io::Result<String> {
    match env::args(rt)?.next() {
        Some(path) => Ok(path),
        None => Err(io::Error::from(io::ErrorKind::NotFound)),
    }
}

/// The program as a servient with these words, whose output is caught.
fn servient(rt: &HostRuntime, words: &[&str]) -> io::Result<Command> {
    let mut command = Command::new(rt.alloc(), own_path(rt)?)?;
    for word in words {
        command.arg(*word)?;
    }
    command.stdout(Stdio::piped());
    command.stderr(Stdio::piped());
    Ok(command)
}

/// Starts the program as a servient that ends after five seconds without traffic.
fn start(rt: &HostRuntime) -> io::Result<Child> {
    servient(rt, &["serve", "level.plan.json", "--idle", "5"])?.spawn(rt)
}

/// Starts the program as such a servient that may open no more than 24 files.
fn start_with_few_files(rt: &HostRuntime) -> io::Result<Child> {
    let mut command = Command::new(rt.alloc(), "sh")?;
    command.arg("-c")?;
    command.arg("ulimit -n 24; exec \"$0\" serve level.plan.json --idle 5")?;
    command.arg(own_path(rt)?)?;
    command.stdout(Stdio::piped());
    command.stderr(Stdio::piped());
    command.spawn(rt)
}

/// More connections are opened to a child than it may have files. Those that it has are served, and so are datagrams;
/// once others are closed, one that waited is. False: a port was taken meanwhile.
fn crowd(rt: &HostRuntime) -> io::Result<bool> {
    let http = free_tcp_port(rt)?;
    let coap = free_udp_port(rt)?;
    fs::write(rt, "level.plan.json", plan(rt, http, coap)?.as_str())?;
    let mut child = start_with_few_files(rt)?;
    let first = match connected(rt, http, &mut child)? {
        Some(stream) => stream,
        None => return ended_early(rt, child),
    };
    let others = connections(rt, http)?;
    let last = TcpStream::connect(rt, ("127.0.0.1", http))?;
    sleep(rt, Duration::from_millis(CROWDED));
    let written = exchange(rt, first, WRITE)?;
    let mut answer = [0u8; 2048];
    let size = ask(rt, coap, &mut answer)?;
    drop(others);
    let read = exchange(rt, last, READ)?;
    let answer = answer.get(..size).unwrap_or(b"");
    end(rt, child, written.as_slice(), read.as_slice(), answer)?;
    Ok(true)
}

/// Connections that do nothing.
fn connections(rt: &HostRuntime, port: u16) -> io::Result<Vec<TcpStream>> {
    let mut streams = Vec::new(rt.alloc());
    for _ in 0..CROWD {
        streams.push(TcpStream::connect(rt, ("127.0.0.1", port))?)?;
    }
    Ok(streams)
}

/// The description of the Thing at these ports, as a consumer has it.
fn description(rt: &HostRuntime, http: u16, coap: u16) -> io::Result<String> {
    Ok(format!(in rt.alloc();
        "{{\"@context\":\"https://www.w3.org/2022/wot/td/v1.1\",\"title\":\"Lamp\",\"security\":\"none\",\"securityDefinitions\":{{\"none\":{{\"scheme\":\"nosec\"}}}},\"properties\":{{\"level\":{{\"type\":\"integer\",\"forms\":[{{\"href\":\"coap://127.0.0.1:{coap}/lamp/properties/level\"}},{{\"href\":\"http://127.0.0.1:{http}/lamp/properties/level\"}}]}},\"a\":{{\"type\":\"string\",\"forms\":[{{\"href\":\"coap://127.0.0.1:{coap}/lamp/properties/a\"}}]}},\"b\":{{\"type\":\"string\",\"forms\":[{{\"href\":\"coap://127.0.0.1:{coap}/lamp/properties/b\"}}]}},\"c\":{{\"type\":\"string\",\"forms\":[{{\"href\":\"coap://127.0.0.1:{coap}/lamp/properties/c\"}}]}}}},\"forms\":[{{\"href\":\"coap://127.0.0.1:{coap}/lamp/properties\",\"op\":\"readallproperties\"}}]}}"
    )?)
}

/// Has the server at this port asked for its Things, and prints whether it names the lamp and no other, since the port
/// isn't the same at each run.
fn discover(rt: &HostRuntime, coap: u16) -> io::Result<()> {
    let server = format!(in rt.alloc(); "127.0.0.1:{coap}")?;
    let output = servient(rt, &["discover", server.as_str()])?.output(rt)?;
    let lamp = format!(in rt.alloc(); "coap://{server}/lamp\n")?;
    let status = output.status.code().unwrap_or(-1);
    let is_lamp = output.stdout.as_slice() == lamp.as_bytes();
    println!(rt; "status {status}, the lamp and no other: {is_lamp}")
}

/// Has the Thing at these ports consumed, and prints the outcomes.
fn consume(rt: &HostRuntime, http: u16, coap: u16) -> io::Result<()> {
    fs::write(rt, "level.td.json", description(rt, http, coap)?.as_str())?;
    fs::write(rt, "seven.json", "7")?;
    let by_coap = &["--scheme", "coap", "--input", "seven.json"];
    consumer(rt, "writeproperty", "level", by_coap)?;
    consumer(rt, "readproperty", "level", &["--scheme", "coap"])?;
    consumer(rt, "readproperty", "level", &["--scheme", "http"])?;
    consume_texts(rt)?;
    consume_derived(rt)
}

/// Has long texts written, and all properties read.
fn consume_texts(rt: &HostRuntime) -> io::Result<()> {
    fs::write(rt, "text.json", text(rt)?.as_str())?;
    for name in ["a", "b", "c"] {
        consumer(rt, "writeproperty", name, &["--input", "text.json"])?;
    }
    consumer(rt, "readallproperties", "-", &[])
}

/// Has each affordance consumed over HTTP by the description that is derived.
fn consume_derived(rt: &HostRuntime) -> io::Result<()> {
    let derived = servient(rt, &["derive", "level.plan.json"])?.output(rt)?;
    fs::write(rt, "level.td.json", derived.stdout.as_slice())?;
    fs::write(rt, "eight.json", "8")?;
    fs::write(rt, "on.json", "\"on\"")?;
    write_and_read(rt, "level", "eight.json")?;
    for name in ["a", "b", "c"] {
        write_and_read(rt, name, "on.json")?;
    }
    let input = &["--scheme", "http", "--input", "eight.json"];
    consumer(rt, "invokeaction", "fade", input)?;
    consumer(rt, "readallproperties", "-", &["--scheme", "http"])
}

/// Has a property written and read over HTTP.
fn write_and_read(rt: &HostRuntime, name: &str, file: &str) -> io::Result<()> {
    let input = &["--scheme", "http", "--input", file];
    consumer(rt, "writeproperty", name, input)?;
    consumer(rt, "readproperty", name, &["--scheme", "http"])
}

/// A long text, as JSON.
fn text(rt: &HostRuntime) -> io::Result<String> {
    let mut text = String::new(rt.alloc());
    text.push('"')?;
    for _ in 0..TEXT_BYTES {
        text.push('x')?;
    }
    text.push('"')?;
    Ok(text)
}

/// Starts the program as a consumer that does an operation with these options, and prints its end.
fn consumer(rt: &HostRuntime, operation: &str, name: &str, options: &[&str]) -> io::Result<()> {
    let mut command = servient(rt, &["consume", "level.td.json", operation, name])?;
    for word in options {
        command.arg(*word)?;
    }
    let output = command.output(rt)?;
    print_end(rt, &output)
}

/// Has a description without a title checked, and prints the end.
fn refuse(rt: &HostRuntime) -> io::Result<()> {
    let output = servient(rt, &["check", "untitled.td.json"])?.output(rt)?;
    print_end(rt, &output)
}

/// A connection to the child, once it listens; none where it has ended before.
fn connected(rt: &HostRuntime, port: u16, child: &mut Child) -> io::Result<Option<TcpStream>> {
    for _ in 0..TRIES {
        if let Ok(stream) = TcpStream::connect(rt, ("127.0.0.1", port)) {
            return Ok(Some(stream));
        }
        if child.try_wait()?.is_some() {
            return Ok(None);
        }
        sleep(rt, Duration::from_millis(PAUSE));
    }
    Ok(None)
}

/// Sends a request, and reads until the connection ends.
fn exchange(rt: &HostRuntime, stream: TcpStream, request: &[u8]) -> io::Result<Vec<u8>> {
    let mut stream = stream;
    stream.set_read_timeout(Some(Duration::from_secs(PATIENCE)))?;
    stream.write_all(request)?;
    let mut reply = Vec::new(rt.alloc());
    stream.read_to_end(&mut reply)?;
    Ok(reply)
}

/// Asks for the property by CoAP, and gives the size of the answer.
fn ask(rt: &HostRuntime, port: u16, answer: &mut [u8]) -> io::Result<usize> {
    let socket = UdpSocket::bind(rt, "127.0.0.1:0")?;
    socket.set_read_timeout(Some(Duration::from_secs(PATIENCE)))?;
    socket.send_to(ASK, ("127.0.0.1", port))?;
    socket.recv(answer)
}

/// Prints both replies by HTTP as they are, and the bytes of the answer by CoAP.
fn print(rt: &HostRuntime, written: &[u8], read: &[u8], answer: &[u8]) -> io::Result<()> {
    println!(rt; "{}", str::from_utf8(written).unwrap_or("no text"))?;
    println!(rt; "{}", str::from_utf8(read).unwrap_or("no text"))?;
    for byte in answer {
        print!(rt; "{byte:02x}")?;
    }
    println!(rt; "")
}

/// Waits for the end of a child, and prints what it replied, and its end.
fn end(
    rt: &HostRuntime,
    child: Child,
    written: &[u8],
    read: &[u8],
    answer: &[u8],
) -> io::Result<()> {
    let output = child.wait_with_output(rt.alloc())?;
    print(rt, written, read, answer)?;
    print_end(rt, &output)
}

/// Prints the end of the child.
fn print_end(rt: &HostRuntime, output: &Output) -> io::Result<()> {
    let status = output.status.code().unwrap_or(-1);
    let size = output.stdout.len() + output.stderr.len();
    println!(rt; "status {status}, {size} bytes of output")?;
    print!(rt;
        "{}",
        str::from_utf8(output.stdout.as_slice()).unwrap_or("no text")
    )
}
