//! Tests of a whole run of `solve` over memory: each kind of answer, byte for byte, with one worker
//! and with three, and a refusal. The reports were worked out by hand.

use std::test::Fail;
use wf_base::lines::Form;
use wf_base::streams::{Sink, Source};
use wf_complex::BuildFault;
use wf_examples::{CONSENSUS_2, PATH_2, PATH_3};
use wf_run::RunFault;
use wf_run_solve::{Outcome, run_solve};

/// A question for a run, and the report that it has to write.
struct Case {
    task: &'static str,
    rounds: u32,
    form: Form,
    outcome: Outcome,
    report: &'static str,
}

const CASES: [Case; 5] = [
    Case {
        task: PATH_2,
        rounds: 1,
        form: Form::Full,
        outcome: Outcome::Map,
        report: "wfcheck report 1\nprocesses 2\nrounds 1\npoints 4\nexecutions 5\nanswer map\n\
            m 0\nm 2\nm 1\nm 0\nend\n",
    },
    Case {
        task: PATH_3,
        rounds: 1,
        form: Form::Verdict,
        outcome: Outcome::Map,
        report: "wfcheck report 1\nprocesses 2\nrounds 1\npoints 4\nexecutions 5\nanswer map\n\
            m 0\nm 3\nm 2\nm 1\nend\n",
    },
    Case {
        task: PATH_2,
        rounds: 1,
        form: Form::Least,
        outcome: Outcome::Map,
        report: "wfcheck report 1\nprocesses 2\nrounds 1\npoints 4\nexecutions 5\nanswer least\n\
            m 0\nm 2\nm 1\nm 0\np 0 0 1\np 0 0 2\np 1 1 0\np 1 1 1\np 3 1 2\np 4 0 0\nb 2\nb 3\n\
            f\nend\n",
    },
    Case {
        task: CONSENSUS_2,
        rounds: 1,
        form: Form::Full,
        outcome: Outcome::Nothing,
        report: "wfcheck report 1\nprocesses 2\nrounds 1\npoints 4\nexecutions 5\nanswer none\n\
            p 0 0 1\np 1 1 0\np 3 1 1\np 4 0 0\np 2 0 1\nz 2\nend\n",
    },
    Case {
        task: PATH_3,
        rounds: 0,
        form: Form::Verdict,
        outcome: Outcome::Nothing,
        report: "wfcheck report 1\nprocesses 2\nrounds 0\npoints 2\nexecutions 3\nanswer none\n\
            end\n",
    },
];

/// Checks that `run_solve` writes each report, and the same one with three workers.
#[test]
fn each_answer_is_written(rt: HostRuntime) -> Result<(), Fail> {
    for (number, case) in CASES.iter().enumerate() {
        for workers in [1, 3] {
            let mut written = Vec::new(rt.alloc());
            let mut source = Source::new(case.task.as_bytes());
            let mut sink = Sink::new(&mut written);
            let found = run_solve(
                &rt,
                rt.alloc(),
                &mut source,
                &mut sink,
                case.rounds,
                workers,
                case.form,
            );
            drop(sink);
            let is_right = matches!(found, Ok((outcome, _)) if outcome == case.outcome);
            assert!(rt; is_right, "case {number} with {workers} workers");
            assert_eq!(rt; written.as_slice(), case.report.as_bytes(), "case {number}");
        }
    }
    Ok(())
}

/// Checks that `run_solve` refuses nine rounds, and writes nothing then.
#[test]
fn nine_rounds_are_refused(rt: HostRuntime) -> Result<(), Fail> {
    let mut written = Vec::new(rt.alloc());
    let mut source = Source::new(PATH_3.as_bytes());
    let mut sink = Sink::new(&mut written);
    let found = run_solve(&rt, rt.alloc(), &mut source, &mut sink, 9, 1, Form::Full);
    drop(sink);
    let is_right = matches!(found, Err(RunFault::Build(BuildFault::Rounds)));
    assert!(rt; is_right, "nine rounds were not refused as such");
    assert_eq!(rt; written.len(), 0);
    Ok(())
}
