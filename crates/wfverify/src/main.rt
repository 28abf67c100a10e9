//! `wfverify`: checks that a certificate about a task is true.
//!
//! The program itself is [`checker`]; `main` passes it the words of the command line, the file
//! system, standard input, standard output and standard error.
#![tactic(auto)]

pub mod checker;

use crate::checker::run_checker;
use std::io;
use std::process::ExitCode;
use wf_base::streams::{Sink, Source};
use wf_cli::service::{Disk, Opener, occupy_closed_descriptors};
use wf_cli::words::arguments;

/// Runs the checker on the process's own words, files and streams.
fn main(rt: HostRuntime) -> ExitCode {
    let _held = occupy_closed_descriptors(&rt);
    let status = run_checker(
        &rt,
        rt.alloc(),
        &mut Opener::new(Disk(&rt)),
        arguments(&rt),
        &mut Source::new(rt.reader()),
        &mut Sink::new(io::writer(&rt)),
        &mut Sink::new(rt.stderr()),
    );
    ExitCode::from(status)
}
