//! The program `braid`: carries out the command that its words are, over standard input and output, the system's files and
//! its sockets.
//!
//! `run` is the top call. Its contract says, for any source, sink, keeper, dialer and port, what is printed and with which
//! status: of `check` as a function of the bytes that the source gave, of `serve` with what its connections read, wrote and
//! left, of the client's commands with what is kept and what was said on their links, and of `drill` by its words. `exit_code`
//! takes the words, or why they were not read, and answers the exit status as a number. `main` hands it standard input, standard
//! output, a keeper of files, a dialer and a port, and ends with that number.
//!
//! Not promised: what a terminal, a pipe or a file holds, and what a socket does.
#![tactic(auto)]

mod commands;
mod laws;
mod table;
mod words;

use braid_io::{StdSink, StdSource};
use braid_net::{FileKeeper, TcpDialer, TcpPort};
use commands::exit_code;
use std::process::ExitCode;
use words::read_words;

fn main(rt: HostRuntime) -> ExitCode {
    let (mut source, mut out) = (
        StdSource::new(rt.reader()),
        StdSink::new(std::io::writer(&rt)),
    );
    let (mut keeper, mut dialer) = (FileKeeper::new(rt), TcpDialer::new(rt));
    let mut port = TcpPort::new(rt);
    ExitCode::from(exit_code(
        rt.alloc(),
        &rt,
        read_words(&rt),
        &mut source,
        &mut out,
        &mut keeper,
        &mut dialer,
        &mut port,
    ))
}

#[cfg(test)]
mod loopback_test;
#[cfg(test)]
mod meeting_test;
#[cfg(test)]
mod tests;
