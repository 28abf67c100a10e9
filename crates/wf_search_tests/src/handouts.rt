//! Tests of handouts: takes in one thread, in a known order, and in several threads, in any order.

ghost use Rattle.std.specs.Prelude.{ℕ, ◌≡◌, ◌*◌, ◌^◌, ◌<◌, length};
ghost use Rattle.wf_handout.specs.Shares.{AllAt};

use std::alloc::{AllocError, Global};
use std::process::Abort;
use std::test::Fail;
use std::thread;
use std::thread::Threads;
use wf_handout::{Counter, Handout, Stealing};

/// A sequence of takes from a handout of `branches` branches to `others` + 1 shares: the index of
/// the share that takes, what each take gets, and which branches are left at the end.
struct Takes {
    branches: u8,
    others: u8,
    takers: &'static [usize],
    taken: &'static [Option<u32>],
    left: &'static [u32],
}

static OF_A_COUNTER: [Takes; 3] = [
    Takes {
        branches: 3,
        others: 1,
        takers: &[0, 1, 0, 0, 1],
        taken: &[Some(0), Some(1), Some(2), None, None],
        left: &[],
    },
    Takes {
        branches: 0,
        others: 0,
        takers: &[0],
        taken: &[None],
        left: &[],
    },
    Takes {
        branches: 3,
        others: 0,
        takers: &[0],
        taken: &[Some(0)],
        left: &[1, 2],
    },
];

/// Takes from deques. A share whose own deque is empty steals from that of the next share, and the
/// last share from the first. A share that finds the next deque empty has ended, even if a third
/// one has branches.
static OF_THE_DEQUES: [Takes; 6] = [
    Takes {
        branches: 5,
        others: 1,
        takers: &[0, 0, 0, 0, 0, 0, 1],
        taken: &[Some(0), Some(2), Some(4), Some(1), Some(3), None, None],
        left: &[],
    },
    Takes {
        branches: 1,
        others: 1,
        takers: &[1, 0, 1],
        taken: &[Some(0), None, None],
        left: &[],
    },
    Takes {
        branches: 6,
        others: 2,
        takers: &[2, 2, 2, 2, 2, 0],
        taken: &[Some(2), Some(5), Some(0), Some(3), None, Some(1)],
        left: &[4],
    },
    Takes {
        branches: 0,
        others: 0,
        takers: &[0],
        taken: &[None],
        left: &[],
    },
    Takes {
        branches: 3,
        others: 0,
        takers: &[0],
        taken: &[Some(0)],
        left: &[1, 2],
    },
    Takes {
        branches: 5,
        others: 1,
        takers: &[1],
        taken: &[Some(1)],
        left: &[3, 0, 2, 4],
    },
];

/// Takes a branch for the share with index `who`, if there is one.
fn take_at<H: Handout>(handout: &H, shares: &mut Vec<H::Share>, who: usize) -> Option<u32>
    requires { (who < length shares.old.items) × AllAt (H.fits handout.now) shares.old.items }
    ensures shares { (length shares.new.items ≡ length shares.old.items)
        × AllAt (H.fits handout.now) shares.new.items }
{
    handout.take(&mut shares[who])
}

/// Makes the takes of `takes` from a new handout, and returns what each got and which branches are
/// left.
fn take_all<H: Handout>(
    alloc: Global,
    takes: &Takes,
) -> Result<(Vec<Option<u32>>, Vec<u32>), AllocError> {
    let workers = u32::from(takes.others) + 1;
    let (handout, mut shares) = H::deal(alloc, u32::from(takes.branches), workers)?;
    let mut taken = Vec::new(alloc);
    for who in takes.takers {
        if *who < shares.len() {
            taken.push(take_at(&handout, &mut shares, *who))?;
        }
    }
    let left = handout.finish(alloc, shares)?;
    Ok((taken, left))
}

/// Checks that each of `all` has its expected results with the handout `H`.
fn take_as_they_say<R: Abort, H: Handout>(
    rt: &R,
    alloc: Global,
    all: &[Takes],
) -> Result<(), Fail> {
    for takes in all {
        let (taken, left) = take_all::<H>(alloc, takes)?;
        assert_eq!(rt;
            (taken.as_slice(), left.as_slice()),
            (takes.taken, takes.left)
        );
    }
    Ok(())
}

/// Checks the order in which shares of both kinds of handout take branches in one thread.
#[test]
fn shares_take_in_a_known_order(rt: HostRuntime) -> Result<(), Fail> {
    take_as_they_say::<_, Counter>(&rt, rt.alloc(), &OF_A_COUNTER)?;
    take_as_they_say::<_, Stealing>(&rt, rt.alloc(), &OF_THE_DEQUES)
}

/// Takes branches for `share` until it gets none, at most `branches`, and returns them.
fn drain<H: Handout>(
    alloc: Global,
    handout: &H,
    mut share: H::Share,
    branches: u32,
) -> Result<Vec<u32>, AllocError>
    requires { (k : ℕ) × H.fits handout.now k share }
{
    let mut taken = Vec::new(alloc);
    for _ in 0..branches {
        match handout.take(&mut share) {
            Some(branch) => taken.push(branch)?,
            None => break,
        }
    }
    Ok(taken)
}

/// Lets all workers take branches at once, and returns what each of them took.
fn drain_all<R: Threads + Sync, H: Handout>(
    rt: &R,
    alloc: Global,
    branches: u32,
    workers: u32,
) -> Result<Vec<Result<Vec<u32>, AllocError>>, AllocError>
    requires { (0 < workers) × (branches * workers < 2 ^ 32) }
{
    let (handout, shares) = H::deal(alloc, branches, workers)?;
    thread::map_vec(
        rt,
        shares,
        &|share: H::Share| -> Result<Vec<u32>, AllocError>
            requires { (k : ℕ) × H.fits handout k share }
        { drain(alloc, &handout, share, branches) },
    )
}

/// Returns whether each of a thousand branches is taken exactly once, in each of a hundred runs.
fn each_is_taken_once<R: Threads + Sync, H: Handout>(
    rt: &R,
    alloc: Global,
    workers: u32,
) -> Result<bool, AllocError>
    requires { (0 < workers) × (1000 * workers < 2 ^ 32) }
{
    for _ in 0..100 {
        let mut is_taken = [false; 1000];
        let mut count = 0u32;
        for taken in drain_all::<R, H>(rt, alloc, 1000, workers)? {
            for branch in taken? {
                if branch >= 1000 || is_taken[branch as usize] {
                    return Ok(false);
                }
                is_taken[branch as usize] = true;
                count = count.wrapping_add(1);
            }
        }
        if count != 1000 {
            return Ok(false);
        }
    }
    Ok(true)
}

/// Checks that one, two and four threads take each branch exactly once, from both kinds of handout.
#[test]
fn threads_take_each_branch_once(rt: HostRuntime) -> Result<(), Fail> {
    for workers in [1, 2, 4] {
        let of_a_counter = each_is_taken_once::<_, Counter>(&rt, rt.alloc(), workers)?;
        let of_the_deques = each_is_taken_once::<_, Stealing>(&rt, rt.alloc(), workers)?;
        assert_eq!(rt; (of_a_counter, of_the_deques), (true, true));
    }
    Ok(())
}
