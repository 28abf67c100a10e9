//! `wfcheck`: decides whether a task can be solved wait-free in r rounds of iterated immediate
//! snapshot.
//!
//! The program itself is [`wf_cli_program`]; `main` passes it the words of the command line, the
//! file system, standard input, standard output and standard error, and an observer that prints
//! progress.
#![tactic(auto)]

use std::io;
use std::process::ExitCode;
use std::sync::atomic::AtomicU64;
use std::sync::atomic::Ordering::SeqCst;
use wf_base::streams::{Sink, Source};
use wf_cli::service::{Disk, Opener, occupy_closed_descriptors};
use wf_cli::words::arguments;
use wf_cli_program::run_program;
use wf_pool::{Gate, Moment};
use wf_run_verify::ProofProgress;
use wf_tree_finder::FinderProgress;

/// The number of search nodes without a settled branch after which a line is printed; further lines
/// come each time that the number has doubled.
const MANY_TURNS: u64 = 65_536;

/// An observer that prints the progress of a run on standard error.
///
/// For a search it prints the size of the complex, the number of branches, a line for each settled
/// branch, and from time to time the number of search nodes since one was settled. For the finder
/// of obstructions it prints the equations that were taken in and the nodes of the tree that are
/// tried; for the check of a proof the line that is reached. Failed writes are ignored.
#[derive(Drop)]
struct ProgressLines<'a, R> {
    rt: &'a R,
    branches: AtomicU64,
    settled: AtomicU64,
    // search nodes since the last branch was settled
    turns: AtomicU64,
}

impl<'a, R> ProgressLines<'a, R> {
    /// Creates an observer of a run that has not begun.
    fn new(rt: &'a R) -> ProgressLines<'a, R> {
        ProgressLines {
            rt,
            branches: AtomicU64::new(0),
            settled: AtomicU64::new(0),
            turns: AtomicU64::new(0),
        }
    }
}

impl<R: Eprint + Sync> Gate for ProgressLines<'_, R> {
    fn complex(&self, points: u32, executions: u32) {
        let _told = eprintln!(self.rt; "complex of {points} points and {executions} executions");
    }

    fn branches(&self, count: u32) {
        self.branches.store(u64::from(count), SeqCst);
        let _told = eprintln!(self.rt; "branches {count}");
    }

    fn at(&self, _worker: u32, moment: Moment) {
        match moment {
            Moment::Taken(_) => {}
            Moment::Turn(branch) => {
                let turns = self.turns.fetch_add(1, SeqCst).saturating_add(1);
                if turns >= MANY_TURNS && turns.is_power_of_two() {
                    let _told = eprintln!(self.rt; "turns {turns}, the last in branch {branch}");
                }
            }
            Moment::Settled(_) => {
                self.turns.store(0, SeqCst);
                let settled = self.settled.fetch_add(1, SeqCst).saturating_add(1);
                let branches = self.branches.load(SeqCst);
                let _told = eprintln!(self.rt; "settled {settled} of {branches}");
            }
        }
    }
}

impl<R: Eprint + Sync> FinderProgress for ProgressLines<'_, R> {
    fn system(&self, modulus: u32, unknowns: u64) {
        let _told = eprintln!(self.rt; "modulo {modulus}: {unknowns} unknowns");
    }

    fn equations(&self, modulus: u32, count: u64) {
        let _told = eprintln!(self.rt; "modulo {modulus}: {count} equations taken in");
    }

    fn split(&self, simplex: u32) {
        let _told = eprintln!(self.rt; "split {simplex}");
    }

    fn part(&self, simplex: u32, number: u32, count: u32) {
        let number = number.saturating_add(1);
        let _told = eprintln!(self.rt; "case {simplex}: part {number} of {count}");
    }

    fn empty(&self, simplex: u32) {
        let _told = eprintln!(self.rt; "case {simplex}: no part");
    }

    fn cover(&self, simplex: u32) {
        let _told = eprintln!(self.rt; "cover {simplex}");
    }
}

impl<R: Eprint + Sync> ProofProgress for ProgressLines<'_, R> {
    fn at_line(&self, line: u64, bytes: u64) {
        let _told = eprintln!(self.rt; "line {line} of the proof, {bytes} bytes read");
    }
}

/// Runs the program on the process's own words, files and streams, with an observer that prints
/// progress.
fn main(rt: HostRuntime) -> ExitCode {
    let _held = occupy_closed_descriptors(&rt);
    let progress = ProgressLines::new(&rt);
    let status = run_program(
        &rt,
        rt.alloc(),
        &mut Opener::new(Disk(&rt)),
        &progress,
        arguments(&rt),
        &mut Source::new(rt.reader()),
        &mut Sink::new(io::writer(&rt)),
        &mut Sink::new(rt.stderr()),
    );
    ExitCode::from(status)
}
