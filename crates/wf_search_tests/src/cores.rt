//! Tests of lists of events and the states that they lead to, worked out by hand.

use std::alloc::Global;
use std::test::Fail;
use wf_core::{Core, CoreFault, Event, Illegal, Status};

const TAKE_0_0: Event = Event::Take {
    worker: 0,
    branch: 0,
};

const TAKE_1_2: Event = Event::Take {
    worker: 1,
    branch: 2,
};

const POST_1_2: Event = Event::Post {
    worker: 1,
    branch: 2,
};

const LOOK_0: Event = Event::Look { worker: 0 };

const POST_0_0: Event = Event::Post {
    worker: 0,
    branch: 0,
};

const CUT_0_0: Event = Event::Cut {
    worker: 0,
    branch: 0,
};

const TAKE_0_1: Event = Event::Take {
    worker: 0,
    branch: 1,
};

const CUT_0_1: Event = Event::Cut {
    worker: 0,
    branch: 1,
};

const TAKE_1_1: Event = Event::Take {
    worker: 1,
    branch: 1,
};

const LOOK_2: Event = Event::Look { worker: 2 };

/// Checks the state after a legal list of events.
#[test]
fn runs_a_legal_list(rt: HostRuntime) -> Result<(), Fail> {
    let events = [
        TAKE_0_0, TAKE_1_2, POST_1_2, LOOK_0, POST_0_0, TAKE_0_1, CUT_0_1,
    ];
    let core = Core::run(rt.alloc(), 3, 2, events.as_slice())?;
    let statuses = [core.status(0), core.status(1), core.status(2)];
    let seen = [core.seen(0), core.seen(1)];
    let wanted = [Status::Posted, Status::Cut, Status::Posted];
    assert!(rt; statuses == wanted && core.least() == 0 && seen == [0, 2]);
    Ok(())
}

/// Returns the fault of `events` for three branches and two workers, or `None` if the list is
/// legal.
fn fault_of(alloc: Global, events: &[Event]) -> Option<CoreFault> {
    Core::run(alloc, 3, 2, events).err()
}

/// Checks that a list of events is refused at its first illegal one, with the reason.
#[test]
fn refuses_at_the_first_illegal_event(rt: HostRuntime) {
    let taken_twice = [
        TAKE_0_0, TAKE_1_2, POST_1_2, LOOK_0, POST_0_0, TAKE_0_1, CUT_0_1, TAKE_1_1,
    ];
    let not_below = [
        TAKE_0_0, TAKE_1_2, POST_1_2, LOOK_0, CUT_0_0, TAKE_0_1, CUT_0_1,
    ];
    let no_worker = [LOOK_2];
    let table = [
        (taken_twice.as_slice(), 7, Illegal::NotFree),
        (not_below.as_slice(), 4, Illegal::NotBelow),
        (no_worker.as_slice(), 0, Illegal::NoWorker),
    ];
    for (events, at, why) in table {
        let fault = fault_of(rt.alloc(), events);
        assert!(rt; fault == Some(CoreFault::Illegal { at, why }), "{why}");
    }
}
