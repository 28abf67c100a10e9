//! Texts of small tasks in their JSON form, for tests.
#![tactic(auto)]

/// The path task of length 3: process 0 decides 0 if it runs alone, process 1 decides 3 if it runs
/// alone, and both together decide values that differ by at most 1.
pub const PATH_3: &str =
    r#"{"version":1,"processes":2,"symmetric":false,"inputs":[[[0,0],[1,0]]],"outputs":[[[0,0],[1,0]],[[0,0],[1,1]],[[0,1],[1,0]],[[0,1],[1,1]],[[0,1],[1,2]],[[0,2],[1,1]],[[0,2],[1,2]],[[0,2],[1,3]],[[0,3],[1,2]],[[0,3],[1,3]]],"delta":[{"in":[[0,0]],"out":[[0]]},{"in":[[1,0]],"out":[[3]]},{"in":[[0,0],[1,0]],"out":[[0,0],[0,1],[1,0],[1,1],[1,2],[2,1],[2,2],[2,3],[3,2],[3,3]]}]}"#;

/// The path task of length 2: as [`PATH_3`], but process 1 decides 2 if it runs alone.
pub const PATH_2: &str =
    r#"{"version":1,"processes":2,"symmetric":false,"inputs":[[[0,0],[1,0]]],"outputs":[[[0,0],[1,0]],[[0,0],[1,1]],[[0,1],[1,0]],[[0,1],[1,1]],[[0,1],[1,2]],[[0,2],[1,1]],[[0,2],[1,2]]],"delta":[{"in":[[0,0]],"out":[[0]]},{"in":[[1,0]],"out":[[2]]},{"in":[[0,0],[1,0]],"out":[[0,0],[0,1],[1,0],[1,1],[1,2],[2,1],[2,2]]}]}"#;

/// A task of one process, which has input 0 and must decide 5.
pub const ONE_PROCESS: &str =
    r#"{"version":1,"processes":1,"symmetric":false,"inputs":[[[0,0]]],"outputs":[[[0,5]]],"delta":[{"in":[[0,0]],"out":[[5]]}]}"#;

/// A task of one process whose only rule has no tuple, so nothing may be decided.
pub const ONE_WITHOUT_TUPLE: &str =
    r#"{"version":1,"processes":1,"symmetric":false,"inputs":[[[0,0]]],"outputs":[[[0,5]]],"delta":[{"in":[[0,0]],"out":[]}]}"#;

/// A task of one process whose output complex is empty.
pub const ONE_WITHOUT_OUTPUT: &str =
    r#"{"version":1,"processes":1,"symmetric":false,"inputs":[[[0,0]]],"outputs":[],"delta":[{"in":[[0,0]],"out":[]}]}"#;

/// Consensus of two processes: process 0 has input 0 and process 1 has input 1, and both decide the
/// same input of a participant.
pub const CONSENSUS_2: &str =
    r#"{"delta":[{"in":[[0,0]],"out":[[0]]},{"in":[[1,1]],"out":[[1]]},{"in":[[0,0],[1,1]],"out":[[0,0],[1,1]]}],"inputs":[[[0,0],[1,1]]],"outputs":[[[0,0],[1,0]],[[0,1],[1,1]]],"processes":2,"symmetric":false,"version":1}"#;

/// Symmetric renaming of two processes into two names: processes that run together decide different
/// names.
pub const RENAMING_2_2: &str =
    r#"{"delta":[{"in":[[0,0]],"out":[[0],[1]]},{"in":[[1,0]],"out":[[0],[1]]},{"in":[[0,0],[1,0]],"out":[[0,1],[1,0]]}],"inputs":[[[0,0],[1,0]]],"outputs":[[[0,0],[1,1]],[[0,1],[1,0]]],"processes":2,"symmetric":true,"version":1}"#;

/// Symmetric renaming of two processes into three names: processes that run together decide
/// different names.
pub const RENAMING_2_3: &str =
    r#"{"delta":[{"in":[[0,0]],"out":[[0],[1],[2]]},{"in":[[1,0]],"out":[[0],[1],[2]]},{"in":[[0,0],[1,0]],"out":[[0,1],[0,2],[1,0],[1,2],[2,0],[2,1]]}],"inputs":[[[0,0],[1,0]]],"outputs":[[[0,0],[1,1]],[[0,0],[1,2]],[[0,1],[1,0]],[[0,1],[1,2]],[[0,2],[1,0]],[[0,2],[1,1]]],"processes":2,"symmetric":true,"version":1}"#;

/// 2-set agreement of three processes: process p has input p, and the processes decide at most two
/// different inputs of participants.
pub const AGREEMENT_3_2: &str = concat!(
    r#"{"delta":[{"in":[[0,0]],"out":[[0]]},{"in":[[1,1]],"out":[[1]]},{"in":[[2,2]],"#,
    r#""out":[[2]]},{"in":[[0,0],[1,1]],"out":[[0,0],[0,1],[1,0],[1,1]]},{"in":[[0,0],[2,"#,
    r#"2]],"out":[[0,0],[0,2],[2,0],[2,2]]},{"in":[[1,1],[2,2]],"out":[[1,1],[1,2],[2,1],"#,
    r#"[2,2]]},{"in":[[0,0],[1,1],[2,2]],"out":[[0,0,0],[0,0,1],[0,0,2],[0,1,0],[0,1,1],"#,
    r#"[0,2,0],[0,2,2],[1,0,0],[1,0,1],[1,1,0],[1,1,1],[1,1,2],[1,2,1],[1,2,2],[2,0,0],"#,
    r#"[2,0,2],[2,1,1],[2,1,2],[2,2,0],[2,2,1],[2,2,2]]}],"inputs":[[[0,0],[1,1],[2,2]]],"#,
    r#""outputs":[[[0,0],[1,0],[2,0]],[[0,0],[1,0],[2,1]],[[0,0],[1,0],[2,2]],[[0,0],[1,"#,
    r#"1],[2,0]],[[0,0],[1,1],[2,1]],[[0,0],[1,2],[2,0]],[[0,0],[1,2],[2,2]],[[0,1],[1,"#,
    r#"0],[2,0]],[[0,1],[1,0],[2,1]],[[0,1],[1,1],[2,0]],[[0,1],[1,1],[2,1]],[[0,1],[1,"#,
    r#"1],[2,2]],[[0,1],[1,2],[2,1]],[[0,1],[1,2],[2,2]],[[0,2],[1,0],[2,0]],[[0,2],[1,"#,
    r#"0],[2,2]],[[0,2],[1,1],[2,1]],[[0,2],[1,1],[2,2]],[[0,2],[1,2],[2,0]],[[0,2],[1,"#,
    r#"2],[2,1]],[[0,2],[1,2],[2,2]]],"processes":3,"symmetric":false,"version":1}"#,
);

/// A symmetric task of three processes, which all have input 0. A process alone decides any of 0, 1
/// and 2; two decide the same value; three decide 000 or 201, in the order of the processes.
pub const SYMMETRIC_201: &str = concat!(
    r#"{"version":1,"processes":3,"symmetric":true,"inputs":[[[0,0],[1,0],[2,0]]],"#,
    r#""outputs":[[[0,0],[1,0],[2,0]],[[0,2],[1,0],[2,1]],[[0,1],[1,1]],[[0,2],[1,2]],"#,
    r#"[[0,1],[2,1]],[[0,2],[2,2]],[[1,1],[2,1]],[[1,2],[2,2]]],"delta":[{"in":[[0,0]],"#,
    r#""out":[[0],[1],[2]]},{"in":[[1,0]],"out":[[0],[1],[2]]},{"in":[[2,0]],"out":[[0],"#,
    r#"[1],[2]]},{"in":[[0,0],[1,0]],"out":[[0,0],[1,1],[2,2]]},{"in":[[0,0],[2,0]],"#,
    r#""out":[[0,0],[1,1],[2,2]]},{"in":[[1,0],[2,0]],"out":[[0,0],[1,1],[2,2]]},"#,
    r#"{"in":[[0,0],[1,0],[2,0]],"out":[[0,0,0],[2,0,1]]}]}"#,
);
