//! The state machine: its state and its steps.

ghost use Rattle.std.specs.Prelude.{ℕ, ◌≡◌, ◌<◌, Some, None, length, slice_set, IfOk, IfErr, OnOk, OnErr};
ghost use Rattle.wf_core.specs.declared.event.Status.TheVariants.{Free, Held};
ghost use Rattle.wf_core.specs.Core.{Is, Saw, IsActive, HoldsNothing, HasSizes, Needs, Step, Run};
ghost use Rattle.wf_core.specs.Core.{start, after, refusal, out_of_reach, Explains};

use crate::event::{CoreFault, Event, Illegal, Status};
use std::alloc::{AllocError, Global};
use std::marker::Model;

/// The state of a pool: the status of each branch, the least posted branch, and what each worker
/// has seen. Contracts see it as a `State` of `specs/Core.antt`.
#[derive(Drop)]
pub struct Core {
    branches: Vec<Status>,
    workers: Vec<WorkerState>,
    least: u32,
}

/// The state of one worker: the number that it has seen, the branch that it holds, and whether it
/// has ended. `holds` repeats what the branches' statuses say, so that no step has to search them.
#[derive(Clone, Copy)]
struct WorkerState {
    seen: u32,
    holds: Option<u32>,
    ended: bool,
}

impl Model for Core {
    ghost use Rattle.wf_core.specs.Core.{State};

    ghost Value = { State };

    ghost use Rattle.wf_core.specs.Fields.{shown, IsTied};

    ghost view = { λ c. shown c.branches.items c.workers.items c.least };

    ghost invariant = { λ c. IsTied c.branches.items c.workers.items };
}

impl Core {
    ghost use Rattle.wf_core.specs.Fields.{IsWorker};

    /// Creates the opening state, in which all branches are free and no worker has seen a posted
    /// one.
    ///
    /// # Errors
    ///
    /// Returns `AllocError` if memory runs out.
    pub fn start(alloc: Global, branches: u32, workers: u32) -> Result<Core, AllocError>
        ensures { IfOk result (λ c. c ≡ start branches workers) }
    {
        let worker = WorkerState {
            seen: branches,
            holds: None,
            ended: false,
        };
        Ok(Core {
            branches: vec![in alloc; Status::Free; branches as usize]?,
            workers: vec![in alloc; worker; workers as usize]?,
            least: branches,
        })
    }

    /// Returns the state after `events`, from the opening state of a pool of `branches` branches
    /// and `workers` workers.
    ///
    /// # Errors
    ///
    /// Returns `Illegal` with the index of the first illegal event and the reason, or `OutOfMemory`
    /// if memory runs out for the opening state.
    pub fn run(
        alloc: Global,
        branches: u32,
        workers: u32,
        events: &[Event],
    ) -> Result<Core, CoreFault>
        ensures ok { IfOk result (Run (start branches workers) events.now) }
        ensures sizes { IfOk result (HasSizes branches workers) }
        ensures fault { IfErr result (Explains (start branches workers) events.now) }
    {
        let mut core = Core::start(alloc, branches, workers)?;
        for (at, event) in events.iter().enumerate() {
            if let Err(why) = core.step(*event) {
                return Err(CoreFault::Illegal { at, why });
            }
        }
        Ok(core)
    }

    /// Performs `event`, in constant time.
    ///
    /// # Errors
    ///
    /// Returns the first reason why `event` is illegal; the state is then unchanged.
    pub fn step(&mut self, event: Event) -> Result<(), Illegal>
        ensures ok { OnOk result (Step self.old event self.new) }
        ensures legal { OnOk result (refusal self.old event ≡ None) }
        ensures why { IfErr result (λ why. refusal self.old event ≡ Some why) }
        ensures unchanged { OnErr result (self.new ≡ self.old) }
        ensures sizes { HasSizes (length self.old.branches) (length self.old.seen) self.new }
    {
        self.check(event)?;
        self.apply(event);
        Ok(())
    }

    /// Returns the least posted branch, or the number of branches if none is posted.
    pub fn least(&self) -> u32
        ensures { result ≡ self.now.least }
    {
        self.least
    }

    /// Returns the status of `branch`.
    pub fn status(&self, branch: u32) -> Status
        requires { branch < length self.now.branches }
        ensures { Is self.now branch result }
    {
        self.branches[branch as usize]
    }

    /// Returns the number that `worker` has seen: the least posted branch at its last look or post,
    /// or the number of branches if none was posted.
    pub fn seen(&self, worker: u32) -> u32
        requires { worker < length self.now.seen }
        ensures { Saw self.now worker result }
    {
        self.workers[worker as usize].seen
    }

    /// Checks that `event` is legal. The reasons against it are tested in the order of [`Illegal`],
    /// so that the first one is returned.
    fn check(&self, event: Event) -> Result<(), Illegal>
        ensures needs { OnOk result (Needs self.now event) }
        ensures why { IfErr result (λ why. refusal self.now event ≡ Some why) }
    {
        match event {
            Event::Take { worker, branch } => {
                let (taker, status) = self.active_at(worker, branch)?;
                if taker.holds.is_some() {
                    return Err(Illegal::Busy);
                }
                if status != Status::Free {
                    return Err(Illegal::NotFree);
                }
                Ok(())
            }
            Event::Look { worker } => {
                self.active(worker)?;
                Ok(())
            }
            Event::Post { worker, branch } | Event::Searched { worker, branch } => {
                self.holder(worker, branch)?;
                Ok(())
            }
            Event::Cut { worker, branch } => {
                let holder = self.holder(worker, branch)?;
                if branch <= holder.seen {
                    return Err(Illegal::NotBelow);
                }
                Ok(())
            }
            Event::End { worker } => {
                if self.active(worker)?.holds.is_some() {
                    return Err(Illegal::Busy);
                }
                Ok(())
            }
        }
    }

    /// Returns the state of worker `w`, if it exists and has not ended.
    fn active(&self, w: u32) -> Result<WorkerState, Illegal>
        ensures ok { IfOk result (λ k. IsWorker self.now w k × IsActive self.now w) }
        ensures why { IfErr result (λ why. refusal self.now (Event.Look w) ≡ Some why) }
    {
        let Some(worker) = self.workers.get(w as usize) else {
            return Err(Illegal::NoWorker);
        };
        if worker.ended {
            return Err(Illegal::Ended);
        }
        Ok(*worker)
    }

    /// Returns the state of worker `w` and the status of branch `i`, if both exist and the worker
    /// has not ended.
    fn active_at(&self, w: u32, i: u32) -> Result<(WorkerState, Status), Illegal>
        ensures ok { IfOk result
            (λ k. IsWorker self.now w k.0 × IsActive self.now w × Is self.now i k.1) }
        ensures why { IfErr result (λ why. out_of_reach self.now w i ≡ Some why) }
    {
        let Some(worker) = self.workers.get(w as usize) else {
            return Err(Illegal::NoWorker);
        };
        let Some(status) = self.branches.get(i as usize) else {
            return Err(Illegal::NoBranch);
        };
        if worker.ended {
            return Err(Illegal::Ended);
        }
        Ok((*worker, *status))
    }

    /// Returns the state of worker `w`, if it holds branch `i` and so may settle it.
    fn holder(&self, w: u32, i: u32) -> Result<WorkerState, Illegal>
        ensures ok { IfOk result
            (λ k. IsWorker self.now w k × IsActive self.now w × Is self.now i (Held w)) }
        ensures why { IfErr result (λ why. refusal self.now (Event.Post w i) ≡ Some why) }
    {
        let (worker, _) = self.active_at(w, i)?;
        if worker.holds != Some(i) {
            return Err(Illegal::NotHeld);
        }
        Ok(worker)
    }

    /// Performs `event`, which must be legal.
    fn apply(&mut self, event: Event)
        requires { Needs self.old event }
        ensures { self.new ≡ after self.old event }
    {
        match event {
            Event::Take { worker, branch } => self.take(worker, branch),
            Event::Look { worker } => self.see(worker, self.least),
            Event::Post { worker, branch } => {
                self.settle(worker, branch, Status::Posted);
                self.least = self.least.min(branch);
                self.see(worker, self.least);
            }
            Event::Searched { worker, branch } => self.settle(worker, branch, Status::Refuted),
            Event::Cut { worker, branch } => self.settle(worker, branch, Status::Cut),
            Event::End { worker } => self.end(worker),
        }
    }

    /// Makes worker `w` hold the free branch `i`.
    fn take(&mut self, w: u32, i: u32)
        requires { IsActive self.old w × HoldsNothing self.old w × Is self.old i Free }
        ensures { self.new ≡ after self.old (Event.Take w i) }
    {
        self.branches[i as usize] = Status::Held(w);
        let worker = &mut self.workers[w as usize];
        worker.holds = Some(i);
    }

    /// Gives branch `i`, which worker `w` holds, the final `status`. The worker then holds no
    /// branch.
    fn settle(&mut self, w: u32, i: u32, status: Status)
        requires { Is self.old i (Held w) × ((v : ℕ) → ¬ (status ≡ Held v)) }
        ensures { self.new ≡ record self.old { branches = slice_set self.old.branches i status } }
    {
        self.branches[i as usize] = status;
        let worker = &mut self.workers[w as usize];
        worker.holds = None;
    }

    /// Records that worker `w` has seen the number `n`.
    fn see(&mut self, w: u32, n: u32)
        requires { IsActive self.old w }
        ensures { self.new ≡ record self.old { seen = slice_set self.old.seen w n } }
    {
        let worker = &mut self.workers[w as usize];
        worker.seen = n;
    }

    /// Records that worker `w` has ended.
    fn end(&mut self, w: u32)
        requires { IsActive self.old w }
        ensures { self.new ≡ after self.old (Event.End w) }
    {
        let worker = &mut self.workers[w as usize];
        worker.ended = true;
    }
}
