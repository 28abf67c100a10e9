//! The reasons why an obstruction is refused, with the line numbers of its text.

ghost use Rattle.std.specs.Prelude.{Some};
ghost use Rattle.wf_run.specs.Faults.{limit_text, obstruction_text};

use std::fmt;

/// A reason why an obstruction is refused. Lines of the text are counted from 1.
#[derive(Clone, Copy, Debug, PartialEq, Eq)]
pub enum ObstructionFault {
    /// 50: the task asks for first blocks of more than one process.
    FirstBlock,
    /// 51: the sum of the balance in this line is not between 1 and its modulus less 1.
    SumRange {
        /// The number of the line.
        line: u32,
    },
    /// 52: the node or multiplier in this line names an input simplex that doesn't exist.
    NoSimplex {
        /// The number of the line.
        line: u32,
    },
    /// 53: the multiplier or cover in this line names a place that its simplex doesn't have.
    NoPlace {
        /// The number of the line.
        line: u32,
    },
    /// 54: the multiplier in this line doesn't have one value for each other participant.
    OthersLength {
        /// The number of the line.
        line: u32,
    },
    /// 55: the weight in this line is not between 1 and the modulus less 1.
    WeightRange {
        /// The number of the line.
        line: u32,
    },
    /// 56: the multipliers of vertices don't add up to the sum of the balance in this line.
    OtherSum {
        /// The number of the line.
        line: u32,
    },
    /// 57: with the balance in this line, a tuple doesn't count 0. It is the first such tuple of
    /// the task that the node is about.
    NotBalanced {
        /// The number of the line.
        line: u32,
        /// The index of the input simplex that allows the tuple.
        simplex: u64,
        /// The index of the tuple among those of its simplex.
        tuple: u64,
    },
    /// 58: the nodes end in this line, where a tree has to begin.
    NoTree {
        /// The number of the line.
        line: u32,
    },
    /// 59: the node in this line comes after the end of the tree.
    Behind {
        /// The number of the line.
        line: u32,
    },
    /// 65: the node in this line is a split or a cover, but the task is symmetric.
    Symmetric {
        /// The number of the line.
        line: u32,
    },
    /// 66: the cover in this line is of a simplex with a single participant.
    OneParticipant {
        /// The number of the line.
        line: u32,
    },
    /// 67: the cover in this line has no sheet.
    NoSheet {
        /// The number of the line.
        line: u32,
    },
    /// 68: by the cover in this line, going round a tuple of its simplex leads some sheet to
    /// another one.
    NotFlat {
        /// The number of the line.
        line: u32,
        /// The index of the tuple among those of the simplex.
        tuple: u64,
    },
    /// 69: the node in this line exceeds a limit of the checker.
    TooLarge {
        /// The number of the line.
        line: u32,
        /// The limit.
        limit: CheckerLimit,
    },
}

/// A limit of the checker of obstructions.
#[derive(Clone, Copy, Debug, PartialEq, Eq)]
pub enum CheckerLimit {
    /// The depth to which nodes with trees below them may be nested.
    Levels,
    /// The number of nodes.
    Nodes,
    /// The largest name, a number, that splits and covers may give to a value.
    Names,
    /// The number of tuples that a split or a cover makes.
    Tuples,
}

impl fmt::Display for ObstructionFault {
    ghost output = { λ f. Some (obstruction_text f) };

    fn fmt<W: fmt::Write>(&self, f: &mut fmt::Formatter<W>) -> fmt::Result {
        match *self {
            ObstructionFault::FirstBlock => write!(f, "50 FirstBlock"),
            ObstructionFault::SumRange { line } => write!(f, "51 SumRange {line}"),
            ObstructionFault::NoSimplex { line } => write!(f, "52 NoSimplex {line}"),
            ObstructionFault::NoPlace { line } => write!(f, "53 NoPlace {line}"),
            ObstructionFault::OthersLength { line } => write!(f, "54 OthersLength {line}"),
            ObstructionFault::WeightRange { line } => write!(f, "55 WeightRange {line}"),
            ObstructionFault::OtherSum { line } => write!(f, "56 OtherSum {line}"),
            ObstructionFault::NotBalanced {
                line,
                simplex,
                tuple,
            } => write!(f, "57 NotBalanced {line} {simplex} {tuple}"),
            ObstructionFault::NoTree { line } => write!(f, "58 NoTree {line}"),
            ObstructionFault::Behind { line } => write!(f, "59 Behind {line}"),
            ObstructionFault::Symmetric { line } => write!(f, "65 Symmetric {line}"),
            ObstructionFault::OneParticipant { line } => write!(f, "66 OneParticipant {line}"),
            ObstructionFault::NoSheet { line } => write!(f, "67 NoSheet {line}"),
            ObstructionFault::NotFlat { line, tuple } => write!(f, "68 NotFlat {line} {tuple}"),
            ObstructionFault::TooLarge { line, limit } => write!(f, "69 TooLarge {line} {limit}"),
        }
    }
}

impl fmt::Display for CheckerLimit {
    ghost output = { λ limit. Some (limit_text limit) };

    fn fmt<W: fmt::Write>(&self, f: &mut fmt::Formatter<W>) -> fmt::Result {
        match self {
            CheckerLimit::Levels => write!(f, "levels"),
            CheckerLimit::Nodes => write!(f, "nodes"),
            CheckerLimit::Names => write!(f, "names"),
            CheckerLimit::Tuples => write!(f, "tuples"),
        }
    }
}
