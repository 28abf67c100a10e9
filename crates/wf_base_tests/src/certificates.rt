//! Tests of a whole run of `verify` over memory: each kind of acceptance, and two refusals. The
//! reports were worked out by hand.

use std::alloc::Global;
use std::test::Fail;
use std::thread::Threads;
use wf_base::streams::{Sink, Source};
use wf_examples::{CONSENSUS_2, PATH_2};
use wf_report::CertFault;
use wf_run::RunFault;
use wf_run_verify::{Accepted, run_verify};

const MAP: &str = "wfcheck report 1\nprocesses 2\nrounds 1\npoints 4\nexecutions 5\nanswer map\n\
    m 0\nm 2\nm 1\nm 0\nend\n";

const LEAST: &str = "wfcheck report 1\nprocesses 2\nrounds 1\npoints 4\nexecutions 5\n\
    answer least\nm 0\nm 2\nm 1\nm 0\np 0 0 1\np 0 0 2\np 1 1 0\np 1 1 1\np 3 1 2\np 4 0 0\n\
    b 2\nb 3\nf\nend\n";

const NONE: &str = "wfcheck report 1\nprocesses 2\nrounds 1\npoints 4\nexecutions 5\nanswer none\n\
    p 0 0 1\np 1 1 0\np 3 1 1\np 4 0 0\np 2 0 1\nz 2\nend\n";

/// A map that decides 2 and 0 where both processes ran together, which Δ does not allow.
const WRONG_MAP: &str = "wfcheck report 1\nprocesses 2\nrounds 1\npoints 4\nexecutions 5\n\
    answer map\nm 0\nm 2\nm 2\nm 0\nend\n";

/// Verifies `report` about the task with the text `task`, and returns the result with the text
/// that was written.
fn verified<T: Threads + Sync>(
    rt: &T,
    alloc: Global,
    task: &str,
    report: &str,
    rounds: Option<u32>,
) -> (Result<Accepted, RunFault>, Vec<u8>) {
    let mut written = Vec::new(alloc);
    let mut tasks = Source::new(task.as_bytes());
    let mut reports = Source::new(report.as_bytes());
    let mut sink = Sink::new(&mut written);
    let found = run_verify(rt, alloc, &mut tasks, &mut reports, &mut sink, rounds);
    drop(sink);
    (found, written)
}

/// Checks that a map, a least map and a refutation are accepted, each with its line.
#[test]
fn true_reports_are_accepted(rt: HostRuntime) -> Result<(), Fail> {
    let (found, text) = verified(&rt, rt.alloc(), PATH_2, MAP, None);
    assert_eq!(rt; found, Ok(Accepted::Map));
    assert_eq!(rt; text.as_slice(), b"accepted map\n".as_slice());
    let (found, text) = verified(&rt, rt.alloc(), PATH_2, LEAST, None);
    assert_eq!(rt; found, Ok(Accepted::Least));
    assert_eq!(rt; text.as_slice(), b"accepted least\n".as_slice());
    let (found, text) = verified(&rt, rt.alloc(), CONSENSUS_2, NONE, None);
    assert_eq!(rt; found, Ok(Accepted::Nothing));
    assert_eq!(rt; text.as_slice(), b"accepted none\n".as_slice());
    Ok(())
}

/// Checks that a map with a tuple that Δ does not allow is refused at the first execution with it,
/// a report about other rounds is refused, and nothing is written then.
#[test]
fn wrong_reports_are_refused(rt: HostRuntime) -> Result<(), Fail> {
    let (found, text) = verified(&rt, rt.alloc(), PATH_2, WRONG_MAP, None);
    let is_right = matches!(found, Err(RunFault::Cert(CertFault::Violates { .. })));
    assert!(rt;
        is_right && text.is_empty(),
        "a wrong map was not refused as such"
    );
    let (found, text) = verified(&rt, rt.alloc(), PATH_2, MAP, Some(2));
    assert_eq!(rt; found, Err(RunFault::OtherRounds));
    assert_eq!(rt; text.len(), 0);
    Ok(())
}
