//! The example. Each cloud and each command is a process that runs this same program with words.

use std::io::{ErrorKind, Read, Write};
use std::net::TcpListener;
use std::process::{Child, Command, ExitCode, Output, Stdio};
use std::{io, str};

const PROGRAM: &str = "/proc/self/exe";

// How many connections each cloud serves: the backup, and those of the two restores that name it. Behind the last one a server ends.
const COUNTS: [u32; 4] = [2, 3, 3, 2];

// How often another port is tried where one was taken meanwhile.
const TRIES: usize = 10;

// A cloud's process, and where it listens.
#[derive(Drop)]
struct Server {
    process: Child,
    addr: String,
}

// What breaks the example off: a line or a status that isn't the wanted one.
fn surprise() -> io::Error {
    io::Error::from(ErrorKind::InvalidData)
}

// Adds a word to a command.
fn add(command: &mut Command, word: &str) -> io::Result<()> {
    command.arg(word)?;
    Ok(())
}

// A command of this program, with blanks between its words, whose output is read here.
fn command(rt: &HostRuntime, line: &str, input: Stdio) -> io::Result<Command> {
    let mut command = Command::new(rt.alloc(), PROGRAM)?;
    for word in line.split(' ') {
        add(&mut command, word)?;
    }
    command.stdin(input);
    command.stdout(Stdio::piped());
    Ok(command)
}

// An address at which nothing listens now.
fn free_addr(rt: &HostRuntime) -> io::Result<String> {
    let free = TcpListener::bind(rt, "127.0.0.1:0")?.local_addr()?;
    Ok(format!(in rt.alloc(); "{free}")?)
}

// What a server writes first: a line, or all that it wrote.
fn first_line(rt: &HostRuntime, server: &mut Child) -> io::Result<Vec<u8>> {
    let mut line = Vec::new(rt.alloc());
    let mut byte = [0];
    if let Some(output) = &mut server.stdout {
        for _ in 0..256 {
            if output.read(&mut byte)? == 0 {
                break;
            }
            line.push(byte[0])?;
            if byte[0] == b'\n' {
                break;
            }
        }
    }
    Ok(line)
}

// Starts a cloud's server at an address.
fn serve(rt: &HostRuntime, cloud: usize, addr: &str) -> io::Result<Child> {
    let count = COUNTS.get(cloud).copied().unwrap_or(1);
    let line = format!(in rt.alloc(); "serve d {cloud} 4 3 {addr} {count}")?;
    command(rt, line.as_str(), Stdio::null())?.spawn(rt)
}

// The same at a free one, beside the other servers, and says whether it listens.
fn listens(rt: &HostRuntime, cloud: usize, servers: &mut Vec<Server>) -> io::Result<bool> {
    let addr = free_addr(rt)?;
    let ready = format!(in rt.alloc(); "ready {addr}\n")?;
    servers.reserve(1)?;
    let process = serve(rt, cloud, addr.as_str())?;
    servers.push(Server { process, addr })?;
    match servers.last_mut() {
        Some(server) => {
            let line = first_line(rt, &mut server.process)?;
            Ok(line.as_slice() == ready.as_bytes())
        }
        None => Ok(false),
    }
}

// Starts a cloud's server, at another address where a port was taken meanwhile.
fn start(rt: &HostRuntime, cloud: usize, servers: &mut Vec<Server>) -> io::Result<()> {
    for _ in 0..TRIES {
        if listens(rt, cloud, servers)? {
            println!(rt; "cloud {cloud} is ready")?;
            return Ok(());
        }
        if let Some(mut server) = servers.pop() {
            stop(&mut server);
        }
    }
    Err(surprise())
}

// Ends a server that may still run.
fn stop(server: &mut Server) {
    if server.process.kill().is_ok() {
        let _ = server.process.wait();
    }
}

// Runs a command with this input, and prints its status and what it wrote. Another status than the wanted one ends the example.
fn act(rt: &HostRuntime, title: &str, line: &str, input: &[u8], wanted: i32) -> io::Result<()> {
    let mut process = command(rt, line, Stdio::piped())?.spawn(rt)?;
    if let Some(stdin) = &mut process.stdin {
        // (a command that refuses its words reads nothing)
        let _ = stdin.write_all(input);
    }
    let output = process.wait_with_output(rt.alloc())?;
    show(rt, title, &output, wanted)
}

// Prints how a process ended, and what it wrote.
fn show(rt: &HostRuntime, title: &str, output: &Output, wanted: i32) -> io::Result<()> {
    let Ok(text) = str::from_utf8(output.stdout.as_slice()) else {
        return Err(surprise());
    };
    let end = if text.ends_with("\n") { "" } else { "\n" };
    match output.status.code() {
        Some(code) => print!(rt; "{title}: status {code}\n{text}{end}")?,
        None => return Err(surprise()),
    }
    if output.status.code() == Some(wanted) {
        Ok(())
    } else {
        Err(surprise())
    }
}

// Waits for a server to end, and prints what it wrote behind its first line.
fn end(rt: &HostRuntime, cloud: usize, server: Server) -> io::Result<()> {
    let title = format!(in rt.alloc(); "cloud {cloud}")?;
    let output = server.process.wait_with_output(rt.alloc())?;
    show(rt, title.as_str(), &output, 0)
}

// Four clouds; a backup to all; a restore from the last three, and one of a version that no cloud has; and a generated session.
fn example(rt: &HostRuntime, servers: &mut Vec<Server>) -> io::Result<()> {
    for cloud in 0..4 {
        start(rt, cloud, servers)?;
    }
    let [a, b, c, d] = servers.as_slice() else {
        return Err(surprise());
    };
    let (a, b, c, d) = (
        a.addr.as_str(),
        b.addr.as_str(),
        c.addr.as_str(),
        d.addr.as_str(),
    );
    let alloc = rt.alloc();
    let backup = format!(in alloc; "backup 7 a 1 {a} {b} {c} {d}")?;
    act(rt, "backup", backup.as_str(), b"A", 0)?;
    let restore = format!(in alloc; "restore 7 a 1 {b} {c} {d}")?;
    act(
        rt,
        "restore from clouds 1, 2 and 3",
        restore.as_str(),
        b"",
        0,
    )?;
    let restore = format!(in alloc; "restore 7 a 2 {a} {b} {c}")?;
    act(
        rt,
        "restore of version 2 from clouds 0, 1 and 2",
        restore.as_str(),
        b"",
        8,
    )?;
    month(rt)
}

// What a read of a version of the generated session wrote, from these clouds.
fn read_back(rt: &HostRuntime, clouds: &str) -> io::Result<Vec<u8>> {
    let line = format!(in rt.alloc(); "read m 4 3 1 file 2 {clouds}")?;
    let process = command(rt, line.as_str(), Stdio::null())?.spawn(rt)?;
    let output = process.wait_with_output(rt.alloc())?;
    if output.status.code() == Some(0) {
        Ok(output.stdout)
    } else {
        Err(surprise())
    }
}

// A generated session of four backups, and a version of it from each choice of three clouds.
fn month(rt: &HostRuntime) -> io::Result<()> {
    act(rt, "gen", "gen 1 4 40 m", b"", 0)?;
    let first = read_back(rt, "0,1,2")?;
    for clouds in ["0,1,3", "0,2,3", "1,2,3"] {
        if read_back(rt, clouds)?.as_slice() != first.as_slice() {
            return Err(surprise());
        }
    }
    let length = first.len();
    println!(rt; "clouds 0,1,2, 0,1,3, 0,2,3 and 1,2,3 give the same {length} bytes")
}

/// Plays the example, and prints what each process wrote but its address. Ends with status 1 where something wasn't as it is wanted; no
/// process is left then.
pub fn play(rt: &HostRuntime) -> ExitCode {
    let mut servers = Vec::new(rt.alloc());
    let mut is_well = example(rt, &mut servers).is_ok();
    for (cloud, mut server) in servers.into_iter().enumerate() {
        if is_well {
            is_well = end(rt, cloud, server).is_ok();
        } else {
            stop(&mut server);
        }
    }
    if is_well {
        ExitCode::SUCCESS
    } else {
        ExitCode::FAILURE
    }
}
