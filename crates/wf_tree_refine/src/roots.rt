//! Union-find: a forest of numbers, as the list of their parents. A parent is smaller than its
//! child, and a root is its own parent.

ghost use Rattle.std.specs.Prelude.{◌≡◌, ◌<◌, ℕ, length};
ghost use Rattle.wf_tree_refine.specs.Forest.{AreParents, IsForest, merged};

/// Returns the root of the tree of `number`. Numbers on the way get the parent of their parent as
/// parent (path halving).
fn root_of(parents: &mut [u32], number: u32) -> u32
    requires inside { number < length parents.old }
    requires parents { AreParents parents.old }
    ensures parents { AreParents parents.new }
    ensures inside { result < length parents.new }
    ensures root { (label : ℕ → ℕ) → IsForest parents.old label → result ≡ label number }
    ensures forest { (label : ℕ → ℕ) → IsForest parents.old label → IsForest parents.new label }
{
    let mut at = number;
    'up: while parents[at as usize] != at {
        let above = parents[parents[at as usize] as usize];
        parents[at as usize] = above;
        at = above;
    }
    at
}

/// Unites the trees of `first` and `second`: the smaller of their roots becomes the parent of the
/// other.
pub(crate) fn join(parents: &mut [u32], first: u32, second: u32)
    requires first { first < length parents.old }
    requires second { second < length parents.old }
    requires parents { AreParents parents.old }
    ensures parents { AreParents parents.new }
    ensures forest { (label : ℕ → ℕ) → IsForest parents.old label
        → IsForest parents.new (merged label (label first) (label second)) }
{
    let one = root_of(parents, first);
    let other = root_of(parents, second);
    parents[one.max(other) as usize] = one.min(other);
}
