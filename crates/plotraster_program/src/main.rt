//! `plotraster`: reads plots and writes their pictures or reports on them, as the command line asks.
#![tactic(auto)]

mod host;

use crate::host::Host;
use clap::ArgMatches;
use delivery::USAGE;
use plotraster::{
    Fault, LineFault, command, deliver_line, destination_of, output_of, parse, parse_status,
    settle, status,
};
use std::fmt::Display;
use std::io::ErrorKind;
use std::process::ExitCode;

fn main(rt: HostRuntime) -> ExitCode {
    let status = match words_of(&rt) {
        Ok(words) => run(&rt, words.as_slice()),
        Err(status) => status,
    };
    ExitCode::from(status)
}

// The words of the command line, or the exit status if they can't be had.
fn words_of(rt: &HostRuntime) -> Result<Vec<String>, u8> {
    match std::env::args(rt) {
        Ok(words) => words
            .collect(rt.alloc())
            .map_err(|_| refuse_run(rt, Fault::Memory)),
        Err(error) if error.kind() == ErrorKind::OutOfMemory => Err(refuse_run(rt, Fault::Memory)),
        Err(_) => Err(refuse(rt, USAGE, &LineFault::Words)),
    }
}

// The exit status of the whole run.
fn run(rt: &HostRuntime, words: &[String]) -> u8 {
    let Ok(command) = command(rt.alloc()) else {
        return refuse_run(rt, Fault::Memory);
    };
    match parse(command, words) {
        Ok(matches) => work(rt, &matches),
        Err(error) => tell(rt, &error),
    }
}

// Prints help, the version, or what is wrong with the words.
fn tell(rt: &HostRuntime, error: &clap::Error) -> u8 {
    if error.kind() == clap::error::ErrorKind::OutOfMemory {
        return refuse_run(rt, Fault::Memory);
    }
    let printed = error.print(rt);
    match parse_status(error) {
        0 if printed.is_err() => refuse_run(rt, Fault::Unfinished),
        status => status,
    }
}

fn work(rt: &HostRuntime, matches: &ArgMatches<'_>) -> u8 {
    let (mut desk, console) = (Host { rt }, Host { rt });
    let destination = destination_of(&mut desk, output_of(matches));
    match settle(matches, destination) {
        Ok(line) => deliver_line(&mut desk, &console, rt.alloc(), &line, destination),
        Err(fault) => refuse(rt, USAGE, &fault),
    }
}

fn refuse_run(rt: &HostRuntime, fault: Fault) -> u8 {
    refuse(rt, status(&fault), &fault)
}

// Says what went wrong. Gives the exit status.
fn refuse<M: Display>(rt: &HostRuntime, status: u8, message: &M) -> u8 {
    let _ = eprintln!(rt; "plotraster: {message}");
    status
}
