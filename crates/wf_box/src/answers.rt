//! The kernel cache as a value of its own, which can outlive the box that filled it.

ghost use Rattle.std.specs.Prelude.{◌≡◌, []};
ghost use Rattle.wf_model.specs.Problem.{Problem};
ghost use Rattle.wf_box.specs.Boxes.{IsFor, ServeFor, with_known};

use crate::boxed::Box0;
use std::alloc::Global;
use std::marker::Model;
use std::mem;
use wf_network::SupportCache;

/// The kernel cache of a box, which can be passed on to the next box of the same problem. It only
/// saves time: no result depends on what is cached.
///
/// A clause sees it as the list of the cached results.
#[derive(Drop)]
pub struct BoxCache {
    memo: SupportCache,
}

impl Model for BoxCache {
    ghost use Rattle.std.specs.Prelude.{List, Option};
    ghost use Rattle.wf_network.specs.Revising.{answers_in};
    ghost use Rattle.wf_network.specs.declared.memo.CacheEntry.{CacheEntry};

    ghost Value = { List (Option CacheEntry) };

    ghost view = { λ a. answers_in a.memo };
}

impl BoxCache {
    /// Creates an empty cache.
    pub fn new(alloc: Global) -> BoxCache
        ensures none { result ≡ [] }
        ensures serve { (p : Problem) → ServeFor p result }
    {
        BoxCache {
            memo: SupportCache::new(alloc),
        }
    }
}

impl Box0 {
    /// Swaps the kernel cache of the box with `answers`. The box can be closed for its problem
    /// afterwards if `answers` has only results of the same problem.
    pub fn swap_cache(&mut self, answers: &mut BoxCache)
        ensures same { self.new ≡ with_known self.old answers.old }
        ensures is { (p : Problem) → ServeFor p answers.old → IsFor p self.old → IsFor p self.new }
        ensures serve { (p : Problem) → IsFor p self.old → ServeFor p answers.new }
    {
        mem::swap(&mut self.workspace.memo, &mut answers.memo);
    }
}
