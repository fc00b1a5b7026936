// The intake of rail tariff deliveries, on the command line.
#![tactic(auto)]

mod demo;
mod reading;
mod script;
mod session;
mod status;

use reading::Reading;
use status::Status;
use std::process::ExitCode;
use std::{env, fs, io};

const HELP: &str = "\
intake reads the tariff deliveries of rail carriers and names the first fault of those it refuses.

  intake                 a short demonstration
  intake check FILE...   read each file and print one line for it
  intake run [SCRIPT]    carry out the commands of a file, or of standard input, one a line:
                           open G S P     a new book, with runs of so many entries (4096 each before)
                           read PATH      read a delivery
                           admit PATH     read a delivery and admit it to the book
                           find K SSSS N  what stands under a number of a supplier; K is G, S or P
                           join SSSS A B  the series of a supplier between two stations
                         blank lines and lines that begin with # are passed over
  intake --help          this page

The exit status is 0 only if every file was read, or every line was a command.";

// One line for a file: what its head says, or why it is refused.
fn check(rt: &HostRuntime, path: &str) -> io::Result<Status> {
    let bytes = match fs::read(rt, path) {
        Ok(bytes) => bytes,
        Err(error) => {
            eprintln!(rt; "intake: {path}: {error}")?;
            return Ok(Status::Failed);
        }
    };
    let reading = Reading::of(bytes.as_slice());
    println!(rt; "{path}: {reading}")?;
    Ok(reading.status())
}

fn check_all(rt: &HostRuntime, paths: env::Args) -> io::Result<Status> {
    if paths.len() == 0 {
        eprintln!(rt; "intake: check needs at least one file; see intake --help")?;
        return Ok(Status::Failed);
    }
    let mut status = Status::Done;
    for path in paths {
        status = status.and(check(rt, path.as_str())?);
    }
    Ok(status)
}

// Carries out the script that the argument names, or standard input.
fn run_script(rt: &HostRuntime, mut args: env::Args) -> io::Result<Status> {
    let text = match args.next() {
        Some(path) => fs::read_to_string(rt, path.as_str()),
        None => io::read_to_string(rt.alloc(), rt.stdin()),
    };
    match text {
        Ok(text) => session::run(rt, text.as_str()),
        Err(error) => {
            eprintln!(rt; "intake: the script cannot be read: {error}")?;
            Ok(Status::Failed)
        }
    }
}

fn run(rt: &HostRuntime) -> io::Result<Status> {
    let mut args = env::args(rt)?;
    let _program = args.next();
    let Some(command) = args.next() else {
        return demo::run(rt);
    };
    match command.as_str() {
        "check" => check_all(rt, args),
        "run" => run_script(rt, args),
        "--help" | "-h" | "help" => {
            println!(rt; "{HELP}")?;
            Ok(Status::Done)
        }
        other => {
            eprintln!(rt; "intake: there is no command '{other}'; see intake --help")?;
            Ok(Status::Failed)
        }
    }
}

fn main(rt: HostRuntime) -> ExitCode {
    match run(&rt) {
        Ok(Status::Done) => ExitCode::SUCCESS,
        Ok(Status::Failed) => ExitCode::FAILURE,
        Err(error) => {
            let _ = eprintln!(rt; "intake: {error}");
            ExitCode::FAILURE
        }
    }
}
