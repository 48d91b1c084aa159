//! The program: the words of its command line, its standard input and output, the files of a folder, connections, the clock, and its exit status.
#![tactic(auto)]

ghost use Rattle.std.specs.Prelude.{◌≡◌};
ghost use Rattle.std.specs.Process.{exit_status};
ghost use Rattle.pad_top.specs.Status.{status_number};

use file_edge::{FileVolume, ReaderSource, SystemClock, WriterSink};
use pad_top::{Status, run};
use std::alloc::AllocError;
use std::env;
use std::fs::File;
use std::io::{self, ErrorKind, Read};
use std::process::ExitCode;
use ws_edge::{WsLink, WsPort};

fn main(rt: HostRuntime) -> ExitCode {
    let words = match words(&rt) {
        Ok(words) => words,
        Err(error) if error.kind() == ErrorKind::OutOfMemory => return exit(Status::NoMemory),
        // Arguments that cannot be had as text are no command, as no arguments are.
        Err(_) => Vec::new(rt.alloc()),
    };
    match run_over_system(&rt, words.as_slice()) {
        Ok(status) => exit(status),
        Err(_) => exit(Status::NoMemory),
    }
}

/// Runs the command that the words ask for over the system's streams, files, connections and clock.
fn run_over_system(rt: &HostRuntime, words: &[String]) -> Result<Status, AllocError> {
    let mut input = ReaderSource::new(rt.stdin());
    let mut output = WriterSink::new(rt.stdout());
    let mut volume = FileVolume::new(rt.alloc(), rt.clone()?);
    let mut port = WsPort::new(rt.alloc(), rt.clone()?);
    let mut link = WsLink::new(rt.alloc(), rt.clone()?);
    let mut clock = SystemClock::new(rt.clone()?);
    Ok(run(
        rt.alloc(),
        words,
        &mut input,
        &mut output,
        &mut volume,
        &mut port,
        &mut link,
        &mut clock,
        key(rt),
    ))
}

/// The key of the identities that a server gives: 32 bytes from the system, or zeros if it gives none.
fn key(rt: &HostRuntime) -> [u8; 32] {
    match random_bytes(rt) {
        Ok(key) => key,
        Err(_) => [0; 32],
    }
}

/// 32 bytes that nobody can guess.
fn random_bytes(rt: &HostRuntime) -> io::Result<[u8; 32]> {
    let mut bytes = [0; 32];
    let mut file = File::open(rt, "/dev/urandom")?;
    file.read_exact(&mut bytes)?;
    Ok(bytes)
}

/// The exit code that the process ends with: the number of the status.
fn exit(status: Status) -> ExitCode
    ensures { exit_status result ≡ status_number status }
{
    ExitCode::from(status.number())
}

/// The arguments after the program's name.
fn words(rt: &HostRuntime) -> io::Result<Vec<String>> {
    let mut words = env::args(rt)?;
    let _ = words.next();
    Ok(words.collect(rt.alloc())?)
}
