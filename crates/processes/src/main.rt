//! The program `cdstore` again, which without words plays an example by itself: four clouds as processes of their own, a backup to them,
//! restores from three of them, and a generated session.
#![tactic(auto)]

mod example;

use cd_top::run;
use example::play;
use real_edges::{DirShelf, StdSink, StdSource, TcpPorts};
use std::env;
use std::io::ErrorKind;
use std::process::ExitCode;
use std::time::Duration;

// The words after the program's name, or the status where there are none: 1 where one isn't UTF-8, 6 for want of memory.
fn words(rt: &HostRuntime) -> Result<Vec<String>, u8> {
    let args = match env::args(rt) {
        Ok(args) => args,
        Err(error) => return Err(if error.kind() == ErrorKind::OutOfMemory {
            6
        } else {
            1
        }),
    };
    args.skip(1).collect(rt.alloc()).map_err(|_| 6)
}

fn main(rt: HostRuntime) -> ExitCode {
    let words = match words(&rt) {
        Ok(words) => words,
        Err(status) => return ExitCode::from(status),
    };
    if words.is_empty() {
        return play(&rt);
    }
    let mut source = StdSource::new(rt.stdin());
    let mut sink = StdSink::new(rt.stdout());
    let mut shelf = DirShelf::new(rt);
    let mut ports = TcpPorts::new(rt.alloc(), &rt).with_patience(Duration::from_secs(600));
    let status = run(
        rt.alloc(),
        &words,
        &mut source,
        &mut sink,
        &mut shelf,
        &mut ports,
    );
    ExitCode::from(status)
}
