//! Benchmarks of `TupleTable::revise` and of the stages of a search.
//!
//! - `wf_bench ROWS CALLS` calls `revise` CALLS times on a table of ROWS rows of four values, and
//!   prints a checksum of the results, and the nanoseconds of processor time that the calls took.
//! - `wf_bench stages ROUNDS [REPEATS [LAST]]` reads a task from standard input, and prints for
//!   each stage the mean nanoseconds of processor time. The stages are reading the task, building
//!   its protocol complex, `join`, `close` and `search`; those after LAST are not run.
//! - With no arguments it prints two checksums, and no time.
#![tactic(auto)]

ghost use Rattle.std.specs.Prelude.{◌≤◌};

mod stages;

use anyhow::Result;
use stages::{LastStage, time_stages};
use std::alloc::{AllocError, Global};
use std::time::CpuClock;
use std::{env, io};
use wf_base::set::from_set64;
use wf_lane::TupleTable;
use wf_task::Row;

/// Returns the number after `x` of a linear congruential generator.
fn next(x: u32) -> u32 {
    x.wrapping_mul(1664525).wrapping_add(1013904223)
}

/// Converts a random number to a value from 0 to 5.
fn value(x: u32) -> u8
    ensures { result ≤ 63 }
{
    ((x >> 16) % 6) as u8
}

/// Creates a table of `size` rows of four pseudo-random values from 0 to 5. It is the same table
/// each time.
fn table_of(alloc: Global, size: u32) -> Result<TupleTable, AllocError> {
    let mut rows = Vec::new(alloc);
    let mut x = 1;
    for _ in 0..size {
        let first = next(x);
        let second = next(first);
        let third = next(second);
        let fourth = next(third);
        let row = Row::new(&[value(first), value(second), value(third), value(fourth)]);
        rows.push(row)?;
        x = fourth;
    }
    TupleTable::build(alloc, &rows, 4)
}

/// Revises `table` `calls` times, and returns a checksum of the results. The candidates of the
/// first two places change from call to call.
fn repeat(table: &TupleTable, calls: u32) -> u64 {
    let mut total: u64 = 0;
    for k in 0..calls {
        let x = u64::from(k);
        let found = table.revise([
            from_set64(63 ^ (x % 64)),
            from_set64(63 ^ (x / 64 % 64)),
            from_set64(62),
            from_set64(31),
        ]);
        let [[a, ..], [b, ..], [c, ..], [d, ..]] = found.masks;
        let mixed = a ^ b.wrapping_mul(3) ^ c.wrapping_mul(5) ^ d.wrapping_mul(7);
        total = total
            .wrapping_mul(31)
            .wrapping_add(mixed ^ u64::from(found.alive));
    }
    total
}

/// Parses a number. Returns `None` if there is no word, or it is no number.
fn number(word: Option<String>) -> Option<u32> {
    word?.parse().ok()
}

/// Parses the name of the last stage to run; it is `search` unless the word is `join` or `close`.
fn last_stage(word: Option<String>) -> LastStage {
    match word.as_deref() {
        Some("join") => LastStage::Join,
        Some("close") => LastStage::Close,
        _ => LastStage::Search,
    }
}

/// Prints the checksums of 1000 revisions of a table of 300 rows and of one of 24 rows.
fn print_sums(rt: &HostRuntime) -> Result<()> {
    let large = table_of(rt.alloc(), 300)?;
    let small = table_of(rt.alloc(), 24)?;
    println!(rt; "{} {}", repeat(&large, 1000), repeat(&small, 1000))?;
    Ok(())
}

/// Prints the checksum of `calls` revisions of a table of `size` rows, and the nanoseconds of
/// processor time that they took.
fn time_table(rt: &HostRuntime, size: u32, calls: u32) -> Result<()> {
    let table = table_of(rt.alloc(), size)?;
    let start = rt.process_cpu_time()?;
    let total = repeat(&table, calls);
    let end = rt.process_cpu_time()?;
    let spent = end.checked_sub(start).unwrap_or_default();
    println!(rt; "{total} {}", spent.as_nanos())?;
    Ok(())
}

/// Runs the benchmark that the command line names.
fn main(rt: HostRuntime) -> Result<()> {
    let mut words = env::args(&rt)?.skip(1);
    let Some(first) = words.next() else {
        return print_sums(&rt);
    };
    let second = number(words.next()).unwrap_or(1);
    if first.as_str() == "stages" {
        let text = io::read_to_string(rt.alloc(), rt.reader())?;
        let repeats = number(words.next()).unwrap_or(1);
        let last = last_stage(words.next());
        return time_stages(&rt, &text, second, repeats, last);
    }
    let size = number(Some(first)).unwrap_or(1);
    time_table(&rt, size, second)
}
