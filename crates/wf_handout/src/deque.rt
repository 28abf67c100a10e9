//! The deque of one worker's branches. Its owner pops at the front, and one other worker, its
//! stealer, steals there too. The branches that were popped, stolen or remain are those that were
//! dealt, each once.

ghost use Rattle.std.specs.Prelude.{◌≡◌, ◌+◌, ◌<◌, ◌≤◌, [], ◌++◌, None, IfOk, OnOk, OnErr};
ghost use Rattle.crossbeam_deque.specs.Handles.{view as pass_view, worker_deque, stealer_deque, worker_view, worker_flavor, worker_index, worker_capacity, stealer_flavor};
ghost use Rattle.wf_handout.specs.Piles.{pile, with_dealt, Held, Takes, AllTaken, Pops};
ghost use Rattle.wf_handout.specs.Parts.{DequeId, Part, part, Gives, IsDealt, IsSettled, HasLeft};

use crossbeam_deque::protocol::{Join, Outcome, Protocol, Split};
use crossbeam_deque::{Pass, Stealer, Worker};
use std::alloc::{AllocError, Global};
use std::collections::LinkedList;
use std::marker::Model;

/// The proof state of an end of a deque: how many of the deque's two parts it stands for, which
/// branches were dealt, and which it has taken. It exists only in proofs; no value of it is made.
pub struct Pile {
    pub parts: u8,
    pub dealt: LinkedList<u32>,
    pub taken: LinkedList<u32>,
}

/// The invariant of a deque: the branches that were dealt are those that were taken and those that
/// remain, each once.
pub struct Balanced;

impl Protocol<u32, Pile> for Balanced {
    ghost holds = { Held };

    ghost first = { pile 2 [] [] };

    ghost guest = { pile 0 [] [] };
}

/// The split of a deque into two parts, one for the owner and one for the stealer, and their
/// joining.
struct Roles;

impl Split<Pile> for Roles {
    ghost left = { λ v. pile 1 v.dealt v.taken };

    ghost right = { λ v. pile 1 v.dealt [] };
}

impl Join<Pile> for Roles {
    ghost both = { λ v w. pile (v.parts + w.parts) v.dealt (v.taken ++ w.taken) };

    ghost spent = { pile 0 [] [] };
}

/// The proof step of dealing a branch: it is added to those that were dealt.
struct Dealt;

impl Outcome<u32, Pile> for Dealt {
    ghost then = { λ v xs w. w ≡ pile v.parts (v.dealt ++ xs) v.taken };
}

/// The proof step of popping or stealing: the branch is added to those that were taken.
struct Took;

impl Outcome<u32, Pile> for Took {
    ghost then = { Takes };

    ghost empty = { AllTaken };
}

type Deque = Worker<u32, Global, Pile, Balanced>;

/// The end of a deque at which its own worker pops.
///
/// Contracts see the identity of the deque, what was dealt to it, and what its owner has popped.
#[derive(Drop)]
pub struct Owner {
    deque: Deque,
}

impl Model for Owner {
    ghost Value = { Part };

    ghost view = { λ o.
        part (worker_deque o.deque) (worker_view o.deque).dealt (worker_view o.deque).taken };

    ghost invariant = { λ o. (worker_flavor o.deque ≡ 0) × ((worker_view o.deque).parts ≡ 1) };
}

/// The right to steal from one deque.
///
/// Contracts see the identity of the deque, what was dealt to it, and what was stolen.
#[derive(Drop)]
pub struct StealPass {
    pass: Pass<u32, Pile>,
}

impl Model for StealPass {
    ghost Value = { Part };

    ghost view = { λ r.
        part (r.pass.rows, r.pass.heap) (pass_view r.pass).dealt (pass_view r.pass).taken };

    ghost invariant = { λ r. (r.pass.me.hand ≡ None) × (r.pass.me.spare ≡ None)
        × ((pass_view r.pass).parts ≡ 1) };
}

/// The front of a deque, at which another worker steals.
///
/// Contracts see the identity of the deque.
#[derive(Drop)]
pub struct StealingEnd {
    stealer: Stealer<u32, Global, Pile, Balanced>,
}

impl Model for StealingEnd {
    ghost Value = { DequeId };

    ghost view = { λ d. stealer_deque d.stealer };

    ghost invariant = { λ d. stealer_flavor d.stealer ≡ 0 };
}

/// Creates the deque of worker `worker`, with the branches whose remainder modulo `workers` is
/// `worker`, in ascending order. Returns its owner's end, its front for stealing, and the right to
/// steal there.
pub fn deal(
    alloc: Global,
    branches: u32,
    workers: u32,
    worker: u32,
) -> Result<(Owner, StealingEnd, StealPass), AllocError>
    requires { worker < workers }
    ensures dealt { IfOk result (λ d. IsDealt branches workers worker d.0.dealt) }
    ensures taken { IfOk result (λ d. d.0.taken ≡ []) }
    ensures ends { IfOk result (λ d. (d.0.deque ≡ d.1) × (d.2 ≡ d.0)) }
{
    let mut deque = deal_to(alloc, branches, workers, worker)?;
    let stealer = deque.stealer()?;
    let pass = deque.another::<Roles>();
    Ok((Owner { deque }, StealingEnd { stealer }, StealPass { pass }))
}

/// Creates a deque with the branches below `branches` whose remainder modulo `workers` is `worker`,
/// in ascending order.
fn deal_to(alloc: Global, branches: u32, workers: u32, worker: u32) -> Result<Deque, AllocError>
    requires { worker < workers }
    ensures dealt { IfOk result (λ d. IsDealt branches workers worker (worker_view d).dealt) }
    ensures whole { IfOk result (λ d. ((worker_view d).parts ≡ 2) × ((worker_view d).taken ≡ [])) }
    ensures flavor { IfOk result (λ d. worker_flavor d ≡ 0) }
{
    let (end, step) = (u64::from(branches), u64::from(workers));
    let mut deque = Deque::fifo_as(alloc, (end / step + 1) as usize)?;
    let mut branch = u64::from(worker);
    while branch < end {
        push(&mut deque, branch as u32);
        branch += step;
    }
    Ok(deque)
}

/// Appends a branch to the deque, which must have room for it.
fn push(deque: &mut Deque, branch: u32)
    requires room { worker_index deque.old < worker_capacity deque.old }
    requires whole { (worker_view deque.old).parts ≡ 2 }
    ensures view { worker_view deque.new ≡ with_dealt (worker_view deque.old) branch }
    ensures index { worker_index deque.new ≡ worker_index deque.old + 1 }
    ensures capacity { worker_capacity deque.old ≤ worker_capacity deque.new }
    ensures flavor { worker_flavor deque.new ≡ worker_flavor deque.old }
{
    match deque.push_as::<Dealt>(branch) {
        Ok(()) => {}
        Err(_) => unreachable!(),
    }
}

/// Pops the branch at the front of the deque.
fn pop_front(deque: &mut Deque) -> Option<u32>
    requires { (0 < (worker_view deque.old).parts) × (worker_flavor deque.old ≡ 0) }
    ensures deque { worker_deque deque.new ≡ worker_deque deque.old }
    ensures flavor { worker_flavor deque.new ≡ 0 }
    ensures taken { Pops result (worker_view deque.old) (worker_view deque.new) }
{
    deque.pop_as::<Took>()
}

impl Owner {
    /// Takes the next of the owner's branches, or returns `None` if the deque is empty.
    pub fn pop(&mut self) -> Option<u32>
        ensures { Gives result self.old self.new }
    {
        pop_front(&mut self.deque)
    }
}

impl StealingEnd {
    /// Tries once to steal the branch at the front of the deque. Returns `None` if the deque is
    /// empty, or another take got in between.
    pub fn steal(&self, thief: &mut StealPass) -> Option<u32>
        requires { thief.old.deque ≡ self.now }
        ensures { Gives result thief.old thief.new }
    {
        self.stealer.steal_as::<Took>(&mut thief.pass).success()
    }
}

/// Joins the two ends of a deque, and appends to `left` the branches that remain in it.
///
/// # Errors
///
/// Returns `AllocError` if memory runs out; the remaining branches are then lost.
pub fn settle(left: &mut Vec<u32>, owner: Owner, thief: StealPass) -> Result<(), AllocError>
    requires { thief.deque ≡ owner.deque }
    ensures whole { OnOk result (IsSettled owner thief left.old.items left.new.items) }
    ensures short { OnErr result (HasLeft owner thief) }
{
    let Owner { mut deque } = owner;
    let StealPass { pass } = thief;
    deque.absorb::<Roles>(pass);
    while let Some(branch) = pop_front(&mut deque) {
        left.push(branch)?;
    }
    Ok(())
}
