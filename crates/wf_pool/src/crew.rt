//! The crew: all workers of a search, each in a thread of its own if one can be had.

ghost use Rattle.std.specs.Prelude.{◌≡◌, ◌^◌, ◌<◌, ◌↔◌, length, IfOk, IfSome, IsSome, All};
ghost use Rattle.std.specs.Thread.{IsSync};
ghost use Rattle.wf_handout.specs.Shares.{AllAt};
ghost use Rattle.wf_pool.specs.Work.{AreAlike, AreDone, AreGrown, HaveRoom, IsDone, IsPopped, IsUnused};
ghost use Rattle.wf_pool.specs.Sites.{AreWorkersOf, IsFreshOf, IsWorkerOf};

use crate::gate::Gate;
use crate::shared::SharedState;
use crate::watch::settle;
use crate::worker::Worker;
use std::alloc::{AllocError, Global};
use std::thread::{Threads, join};
use wf_handout::Handout;

/// A worker and its share of the handout.
#[derive(Drop)]
pub(crate) struct CrewMember<S> {
    pub(crate) worker: Worker,
    pub(crate) share: S,
}

/// The workers of a crew and their shares, each at the index of its worker's number.
#[derive(Drop)]
pub(crate) struct CrewMembers<S> {
    pub(crate) workers: Vec<Worker>,
    pub(crate) shares: Vec<S>,
}

/// Does the work of worker `number`: takes branches until there is none, and settles each. If
/// memory runs out it stops at once.
fn work<H: Handout, G: Gate>(
    alloc: Global,
    shared: &SharedState<G>,
    handout: &H,
    number: u32,
    me: CrewMember<H::Share>,
) -> Result<CrewMember<H::Share>, AllocError>
    requires me { IsFreshOf shared.now me.worker }
    requires share { IsUnused (H.fits handout.now) H.taken number me.share }
    requires count { H.branch_count handout.now ≡ shared.now.board.now.branches }
    ensures worker { IfOk result (λ r. IsWorkerOf shared.now r.worker) }
    ensures share { IfOk result (λ r. H.fits handout.now number r.share) }
    ensures done { IfOk result (λ r. IsDone H.taken r.worker r.share) }
{
    let CrewMember {
        mut worker,
        mut share,
    } = me;
    while let Some(branch) = handout.take(&mut share) {
        worker = settle(alloc, shared, number, worker, branch)?;
    }
    Ok(CrewMember { worker, share })
}

/// Removes and returns the last worker.
fn last_worker<G>(shared: &SharedState<G>, workers: &mut Vec<Worker>) -> Option<Worker>
    requires { All (IsFreshOf shared.now) workers.old.items }
    ensures some { IfSome result (IsFreshOf shared.now) }
    ensures found { IsSome result ↔ (0 < length workers.old.items) }
    ensures others { All (IsFreshOf shared.now) workers.new.items }
    ensures size { IsPopped result workers.old workers.new }
{
    workers.pop()
}

/// Removes and returns the last share. It belongs to the worker whose number is the number of the
/// remaining shares.
fn last_share<H: Handout>(handout: &H, shares: &mut Vec<H::Share>) -> Option<H::Share>
    requires { AllAt (IsUnused (H.fits handout.now) H.taken) shares.old.items }
    ensures some { IfSome result (IsUnused (H.fits handout.now) H.taken (length shares.new.items)) }
    ensures found { IsSome result ↔ (0 < length shares.old.items) }
    ensures others { AllAt (IsUnused (H.fits handout.now) H.taken) shares.new.items }
    ensures size { IsPopped result shares.old shares.new }
{
    shares.pop()
}

/// Splits off the last member of the crew, of which there must be at least one. The member's number
/// is the number of the others.
fn split_last<H: Handout, G>(
    shared: &SharedState<G>,
    handout: &H,
    members: CrewMembers<H::Share>,
) -> (CrewMember<H::Share>, CrewMembers<H::Share>)
    requires workers { All (IsFreshOf shared.now) members.workers.items }
    requires shares { AllAt (IsUnused (H.fits handout.now) H.taken) members.shares.items }
    requires some { 0 < length members.shares.items }
    requires same { length members.workers.items ≡ length members.shares.items }
    ensures worker { IsFreshOf shared.now result.0.worker }
    ensures share { IsUnused (H.fits handout.now) H.taken
        (length result.1.shares.items) result.0.share }
    ensures workers { All (IsFreshOf shared.now) result.1.workers.items }
    ensures shares { AllAt (IsUnused (H.fits handout.now) H.taken) result.1.shares.items }
    ensures size { AreGrown result.1 members }
{
    let CrewMembers {
        mut workers,
        mut shares,
    } = members;
    let Some(worker) = last_worker(shared, &mut workers) else {
        unreachable!()
    };
    let Some(share) = last_share::<H>(handout, &mut shares) else {
        unreachable!()
    };
    let others = CrewMembers { workers, shares };
    (CrewMember { worker, share }, others)
}

/// Appends a worker and its share to `others`. There must be room for them.
fn put_back<H: Handout, G>(
    shared: &SharedState<G>,
    handout: &H,
    others: CrewMembers<H::Share>,
    mine: CrewMember<H::Share>,
) -> CrewMembers<H::Share>
    requires worker { IsWorkerOf shared.now mine.worker }
    requires share { H.fits handout.now (length others.shares.items) mine.share }
    requires done { IsDone H.taken mine.worker mine.share }
    requires workers { AreWorkersOf shared.now others.workers.items }
    requires shares { AllAt (H.fits handout.now) others.shares.items }
    requires all_done { AreDone H.taken others.workers.items others.shares.items }
    requires room { HaveRoom others }
    ensures size { AreGrown others result }
    ensures workers { AreWorkersOf shared.now result.workers.items }
    ensures shares { AllAt (H.fits handout.now) result.shares.items }
    ensures done { AreDone H.taken result.workers.items result.shares.items }
{
    let CrewMembers {
        mut workers,
        mut shares,
    } = others;
    let CrewMember { worker, share } = mine;
    workers.push_reserved(worker);
    shares.push_reserved(share);
    CrewMembers { workers, shares }
}

/// Lets all members of the crew do their work, and returns them in the same order.
///
/// The first worker works in the calling thread. Each other one works in a thread of its own, or in
/// the calling thread after those before it, if `shared.gate` forbids a thread or none can be had.
#[cycle(crew)]
pub(crate) fn crew<R: Threads + Sync, H: Handout, G: Gate>(
    rt: &R,
    alloc: Global,
    shared: &SharedState<G>,
    handout: &H,
    members: CrewMembers<H::Share>,
) -> Result<CrewMembers<H::Share>, AllocError>
    requires workers { All (IsFreshOf shared.now) members.workers.items }
    requires shares { AllAt (IsUnused (H.fits handout.now) H.taken) members.shares.items }
    requires some { (0 < length members.shares.items) × (length members.shares.items < 2 ^ 32) }
    requires same { length members.workers.items ≡ length members.shares.items }
    requires count { H.branch_count handout.now ≡ shared.now.board.now.branches }
    ensures size { IfOk result (AreAlike members) }
    ensures workers { IfOk result (λ r. AreWorkersOf shared.now r.workers.items) }
    ensures shares { IfOk result (λ r. AllAt (H.fits handout.now) r.shares.items) }
    ensures done { IfOk result (λ r. AreDone H.taken r.workers.items r.shares.items) }
{
    let number = members.workers.len() as u32 - 1;
    if number > 0 && shared.gate.may_start(number) {
        return run_last_beside(rt, alloc, shared, handout, members);
    }
    let (last, others) = split_last::<H, G>(shared, handout, members);
    if number == 0 {
        let mine = work(alloc, shared, handout, number, last)?;
        return Ok(put_back::<H, G>(shared, handout, others, mine));
    }
    let others = crew(rt, alloc, shared, handout, others);
    let mine = work(alloc, shared, handout, number, last);
    Ok(put_back::<H, G>(shared, handout, others?, mine?))
}

/// Lets the last worker work in a thread of its own beside the others, or after them if no thread
/// can be had, and returns all members in the same order.
#[cycle(crew)]
fn run_last_beside<R: Threads + Sync, H: Handout, G: Gate>(
    rt: &R,
    alloc: Global,
    shared: &SharedState<G>,
    handout: &H,
    members: CrewMembers<H::Share>,
) -> Result<CrewMembers<H::Share>, AllocError>
    requires workers { All (IsFreshOf shared.now) members.workers.items }
    requires shares { AllAt (IsUnused (H.fits handout.now) H.taken) members.shares.items }
    requires some { (1 < length members.shares.items) × (length members.shares.items < 2 ^ 32) }
    requires same { length members.workers.items ≡ length members.shares.items }
    requires count { H.branch_count handout.now ≡ shared.now.board.now.branches }
    ensures size { IfOk result (AreAlike members) }
    ensures workers { IfOk result (λ r. AreWorkersOf shared.now r.workers.items) }
    ensures shares { IfOk result (λ r. AllAt (H.fits handout.now) r.shares.items) }
    ensures done { IfOk result (λ r. AreDone H.taken r.workers.items r.shares.items) }
{
    let (last, others) = split_last::<H, G>(shared, handout, members);
    let number = others.workers.len() as u32;
    let (mine, others) = join(
        rt,
        move || -> Result<CrewMember<H::Share>, AllocError>
            requires me { IsFreshOf shared.now last.worker }
            requires share { IsUnused (H.fits handout.now) H.taken number last.share }
            requires count { H.branch_count handout.now ≡ shared.now.board.now.branches }
            ensures worker { IfOk result (λ r. IsWorkerOf shared.entry.now r.worker) }
            ensures share { IfOk result (λ r. H.fits handout.entry.now number r.share) }
            ensures done { IfOk result (λ r. IsDone H.taken r.worker r.share) }
        { work(alloc, shared, handout, number, last) },
        move || -> Result<CrewMembers<H::Share>, AllocError>
            requires rt { IsSync R.row }
            requires workers { All (IsFreshOf shared.now) others.workers.items }
            requires shares { AllAt (IsUnused (H.fits handout.now) H.taken) others.shares.items }
            requires some { let n = length others.shares.items in (0 < n) × (n < 2 ^ 32) }
            requires same { length others.workers.items ≡ length others.shares.items }
            requires count { H.branch_count handout.now ≡ shared.now.board.now.branches }
            ensures size { IfOk result (AreAlike others) }
            ensures workers { IfOk result (λ r. AreWorkersOf shared.entry.now r.workers.items) }
            ensures shares { IfOk result (λ r. AllAt (H.fits handout.entry.now) r.shares.items) }
            ensures done { IfOk result (λ r. AreDone H.taken r.workers.items r.shares.items) }
        { crew(rt, alloc, shared, handout, others) },
    );
    Ok(put_back::<H, G>(shared, handout, others?, mine?))
}
