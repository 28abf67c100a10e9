//! The law of sums over executions with signs.

ghost use Rattle.wf_tree_model.specs.Counting.Laws.{SignedExecutionsAddUpToOne, SignedExecutionsAgreeOnFaces};

/// States how signed sums over the executions of a simplex and of its faces agree.
///
/// A function of the last views of a face's participants has the same sum over the signed
/// executions of the simplex and over those of the face. Exactly one more execution has a positive
/// sign than a negative one. Both hold for every number of rounds.
pub fn signed_executions_agree_on_faces()
    ensures faces { SignedExecutionsAgreeOnFaces }
    ensures one { SignedExecutionsAddUpToOne }
{}
