//! Tests of reports and of their checker.

ghost use Rattle.wf_report.specs.Reports.{AreNumbered, body_length};

use std::alloc::{AllocError, Global};
use std::test::Fail;
use std::thread::Threads;
use wf_base::lines::Line;
use wf_complex::Protocol;
use wf_examples::PATH_3;
use wf_report::{
    Body, CertFault, Header, MAX_TEXT_BYTES, Report, read_report, reports_are_read_as_written,
    reports_are_written_as_read, write_report,
};
use wf_report_check::check;
use wf_task::Task;

/// The text of a report about [`PATH_3`] after one round, with a map.
const PATH_3_REPORT: &str =
    "wfcheck report 1\nprocesses 2\nrounds 1\npoints 4\nexecutions 5\nanswer map\nm 0\nm 3\nm 2\nm 1\nend\n";

/// Returns the checker's verdict on `report` about the task of the text `task`.
fn judged<R: Threads + Sync>(
    rt: &R,
    alloc: Global,
    task: &str,
    report: &Report,
) -> Result<Result<(), CertFault>, Fail>
    requires { AreNumbered (body_length report.now.body) }
{
    let task = Task::read_text(alloc, task.as_bytes())?;
    let protocol = Protocol::build(alloc, &task, report.header.rounds)?;
    Ok(check(rt, alloc, &task, &protocol, report))
}

/// Checks that each proper beginning of a report is refused at its last line.
#[test]
fn a_beginning_is_refused_at_its_last_line(rt: HostRuntime) -> Result<(), Fail> {
    let mut feeds = 0u32;
    for (end, byte) in PATH_3_REPORT.as_bytes().iter().enumerate() {
        let beginning = &PATH_3_REPORT.as_bytes()[..end];
        let fault = read_report(rt.alloc(), beginning).err();
        assert_eq!(rt;
            fault,
            Some(CertFault::Syntax(feeds.wrapping_add(1))),
            "{end}"
        );
        if *byte == b'\n' {
            feeds = feeds.wrapping_add(1);
        }
    }
    Ok(())
}

/// Checks the length limit of reports: a text of that length is refused at its first line, and one
/// byte more because of its length.
#[test]
fn a_text_is_too_long_from_one_byte_past_the_limit(rt: HostRuntime) -> Result<(), Fail> {
    let text = vec![in rt.alloc(); b'\n'; MAX_TEXT_BYTES + 1]?;
    let faults = [
        read_report(rt.alloc(), &text[1..]).err(),
        read_report(rt.alloc(), &text).err(),
    ];
    assert_eq!(rt;
        faults,
        [Some(CertFault::Syntax(1)), Some(CertFault::TooLong)]
    );
    Ok(())
}

/// Checks that a report without a map is refused if its lines end at one.
#[test]
fn no_refutation_ends_at_a_map(rt: HostRuntime) -> Result<(), Fail> {
    let header = Header {
        processes: 2,
        rounds: 0,
        points: 2,
        executions: 3,
    };
    let body = Body::Nothing(vec![in rt.alloc(); Line::Found]?);
    let report = Report { header, body };
    let answer = judged(&rt, rt.alloc(), PATH_3, &report)?;
    assert_eq!(rt; answer, Err(CertFault::NotTheMap(7)));
    Ok(())
}

/// The kind of answer that line 6 of a report names.
#[derive(Clone, Copy)]
enum Kind {
    Map,
    Nothing,
    Least,
}

/// The header numbers of reports, their kinds, the values of their maps and their lines, with their
/// texts.
static WRITTEN: [([u32; 4], Kind, &[u8], &[Line], &str); 3] = [
    ([2, 1, 4, 5], Kind::Map, &[0, 3, 2, 1], &[], PATH_3_REPORT),
    (
        [2, 0, 2, 3],
        Kind::Least,
        &[255, 0],
        &[
            Line::Branch { point: 0 },
            Line::Empty { point: 1 },
            Line::Found,
        ],
        "wfcheck report 1\nprocesses 2\nrounds 0\npoints 2\nexecutions 3\nanswer least\nm 255\nm 0\nb 0\nz 1\nf\nend\n",
    ),
    (
        [4, 8, 11, 500_000],
        Kind::Nothing,
        &[],
        &[
            Line::Remove {
                execution: 499_999,
                process: 3,
                value: 63,
            },
            Line::Branch { point: 10 },
            Line::Empty { point: u32::MAX },
        ],
        "wfcheck report 1\nprocesses 4\nrounds 8\npoints 11\nexecutions 500000\nanswer none\np 499999 3 63\nb 10\nz 4294967295\nend\n",
    ),
];

/// Creates the body of a report of kind `kind`. A map has no lines, and a refutation no values.
fn body_of(alloc: Global, kind: Kind, values: &[u8], lines: &[Line]) -> Result<Body, AllocError> {
    let values = Vec::from_slice(alloc, values)?;
    let lines = Vec::from_slice(alloc, lines)?;
    Ok(match kind {
        Kind::Map => Body::Map(values),
        Kind::Nothing => Body::Nothing(lines),
        Kind::Least => Body::Least(values, lines),
    })
}

/// Returns the text of the report with the header numbers `numbers` and the answer `body`.
fn written(alloc: Global, numbers: [u32; 4], body: Body) -> Result<Vec<u8>, AllocError> {
    let [processes, rounds, points, executions] = numbers;
    let header = Header {
        processes,
        rounds,
        points,
        executions,
    };
    write_report(alloc, &Report { header, body })
}

/// Reads the report in `text` and returns its text, written by the call that consumes the report.
fn rewritten(alloc: Global, text: &str) -> Result<Vec<u8>, Fail> {
    let report = read_report(alloc, text.as_bytes())?;
    Ok(report.into_text(alloc)?)
}

/// Checks that each report of [`WRITTEN`] has the expected text, and that a text is the same after
/// it was read and written again.
#[test]
fn reports_are_written_and_read(rt: HostRuntime) -> Result<(), Fail> {
    reports_are_read_as_written();
    reports_are_written_as_read();
    for (numbers, kind, values, lines, text) in &WRITTEN {
        let body = body_of(rt.alloc(), *kind, values, lines)?;
        let first = written(rt.alloc(), *numbers, body)?;
        let again = rewritten(rt.alloc(), text)?;
        assert_eq!(rt; first.as_slice(), text.as_bytes());
        assert!(rt; again == first, "{text}");
    }
    Ok(())
}
