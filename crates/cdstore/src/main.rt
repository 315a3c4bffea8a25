//! cdstore keeps each file on n clouds so that any k of them give it back.
//!
//! The program is thin: it answers `--help` and `--version` by itself, and else hands its words, its standard input, its
//! standard output, the folders of the disk and the system's sockets to `cd_top::run`, and ends with the status that this
//! answers.
#![tactic(auto)]

use cd_top::run;
use real_edges::{DirShelf, StdSink, StdSource, TcpPorts};
use std::env;
use std::io::ErrorKind;
use std::process::ExitCode;
use std::time::Duration;

const HELP: &str = "\
usage: cdstore serve DIR CLOUD N K ADDR COUNT           serve a cloud in DIR, begun if new, for COUNT connections
       cdstore backup USER PATH VERSION ADDR..          store standard input on the n clouds at these addresses
       cdstore spool DIR USER PATH VERSION ADDR..       the same, kept in DIR until each cloud has it; DIR is no cloud's
       cdstore resume DIR ADDR..                        go on with what spool kept in DIR, at the n clouds
       cdstore restore USER PATH VERSION ADDR..         write the version from any k of the clouds at these addresses
       cdstore delete USER PATH VERSION ADDR..          delete the version at the n clouds at these addresses
       cdstore read DIR N K USER PATH VERSION CLOUDS    write the version from any k of these clouds' folders, such as 0,2,3
       cdstore audit DIR CLOUD N K                      read all that a cloud in DIR lists, and write its certificate
       cdstore check DIR CLOUD N K                      see that standard input is the cloud's certificate, and the cloud whole
       cdstore reclaim DIR CLOUD N K                    copy what is alive in a cloud in DIR, and give the room of the rest back
       cdstore migrate DIR CLOUD N K USERS SHARES RECIPES OWNERS FILES
                                                        take a cloud in DIR that an earlier release wrote over, with these rooms
       cdstore replay DIR                               run the script on standard input over empty clouds in DIR
       cdstore gen SEED FILES PIECES DIR                run a generated session over four empty clouds in DIR, and sum it up

N clouds, of which any K give a file back; addresses in the order of the clouds. A script's first line is
`cdstore 1 N K`, or, with how many users there are and the most that each may hold,
`cdstore 1 N K USERS SHARES RECIPES OWNERS FILES`. The others are
  upload USER PATH VERSION BYTES   begin a job, numbered from 1; PATH and BYTES in hexadecimal, - for no bytes
  step JOB CLOUD                   make one request of the job to the cloud
  lose JOB CLOUD                   the same, but the request is lost
  drop JOB CLOUD                   the same, but the reply is lost
  finish JOB                       make all requests that are left, cloud by cloud
  get USER PATH VERSION CLOUDS     read the file back from K or more clouds, such as 1,2,3
  list USER CLOUD                  say which versions the user has there
  delete USER PATH VERSION CLOUD   delete the version at the cloud
  arm CLOUD CALL KEEP              cut a write or sync of the cloud, the next one being 1; a cut write keeps KEEP bytes
  restart CLOUD                    open the cloud again
  replace CLOUD                    put an empty cloud in its place
  rebuild USER CLOUD CLOUDS        bring the user's versions to it from K other clouds, such as 0,1,3

status: 0 done, 1 wrong words, 2 a wrong line or too long a file, 3 input failed, 4 output failed, 5 a disk failed,
        6 out of memory, 7 a cloud can't be opened or isn't empty, 8 refused, 9 a connection failed
";

// How many seconds the other side of a connection may be silent.
const PATIENCE: u64 = 600;

const VERSION: &str = "cdstore 0.1.0\n";

// The words after the program's name, or the status where there are none: 1 where one isn't UTF-8, 6 for want of memory.
fn words(rt: &HostRuntime) -> Result<Vec<String>, u8> {
    let args = match env::args(rt) {
        Ok(args) => args,
        Err(error) => return Err(if error.kind() == ErrorKind::OutOfMemory {
            6
        } else {
            1
        }),
    };
    args.skip(1).collect(rt.alloc()).map_err(|_| 6)
}

fn main(rt: HostRuntime) -> ExitCode {
    let words = match words(&rt) {
        Ok(words) => words,
        Err(status) => return ExitCode::from(status),
    };
    if let [word] = words.as_slice() {
        if word.as_str() == "--help" {
            return told(&rt, HELP);
        }
        if word.as_str() == "--version" {
            return told(&rt, VERSION);
        }
    }
    let mut source = StdSource::new(rt.stdin());
    let mut sink = StdSink::new(rt.stdout());
    let mut shelf = DirShelf::new(rt);
    let mut ports = TcpPorts::new(rt.alloc(), &rt).with_patience(Duration::from_secs(PATIENCE));
    ExitCode::from(run(
        rt.alloc(),
        &words,
        &mut source,
        &mut sink,
        &mut shelf,
        &mut ports,
    ))
}

// Prints a text, and answers 0, or 4 where that failed.
fn told(rt: &HostRuntime, text: &str) -> ExitCode {
    match rt.print(text) {
        Ok(()) => ExitCode::from(0),
        Err(_) => ExitCode::from(4),
    }
}
