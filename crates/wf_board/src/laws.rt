//! Laws that relate the board's calls to the events of the pool in `wf_core`.

ghost use Rattle.wf_board.specs.Shows.{StartIsShown, LookIsEvent, PostIsEvent, SearchedIsEvent, CutIsEvent};
ghost use Rattle.wf_board.specs.Shows.{TakeIsShown, EndIsShown, FinishAnswersTheAccount};

/// States that each call of the board is the pool's event of the same name.
///
/// If the board's table represents some state of the pool before a call, then after the call it
/// represents the state after the event. For the calls that settle a branch, the worker must hold
/// that branch. The events of taking a branch and of ending have no call; they leave unchanged what
/// the table represents. The clauses describe the seat after a call by the same definitions as the
/// calls' contracts.
pub fn calls_are_events()
    ensures start { StartIsShown }
    ensures look { LookIsEvent }
    ensures post { PostIsEvent }
    ensures searched { SearchedIsEvent }
    ensures cut { CutIsEvent }
    ensures take { TakeIsShown }
    ensures end { EndIsShown }
{}

/// States that [`Board::finish`](crate::Board::finish) returns the account of the pool's state: if
/// the seats, in any order, are those of a table that represents the state, then no other account
/// satisfies all the clauses of `finish`.
pub fn finish_answers_the_account()
    ensures { FinishAnswersTheAccount }
{}
