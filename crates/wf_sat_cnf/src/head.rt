//! The lines before the clauses: comments, and the numbers of variables and clauses.

ghost use Rattle.std.specs.Prelude.{◌≡◌, ◌++◌, IfOk, OnOk, codes, string_bytes};
ghost use Rattle.wf_model.specs.Report.{line};
ghost use Rattle.wf_base.specs.Set.Sets.{values_in};
ghost use Rattle.wf_sat_cnf.specs.Exclusions.{line_in};
ghost use Rattle.wf_sat_cnf.specs.Head.{counts_text, head_text};

use crate::exclusions::Branch;
use std::alloc::{AllocError, Global};
use std::fmt::Write;
use wf_base::lines::{put_number, put_words};
use wf_base::set::{Mask, count, split_first};

/// The sizes of a question that the lines before the clauses state.
#[derive(Clone, Copy)]
pub(crate) struct Counts {
    /// The number of processes of the task.
    pub processes: u8,
    /// The number of rounds.
    pub rounds: u32,
    /// The number of points of the protocol complex.
    pub points: u32,
    /// The number of executions of the protocol complex.
    pub executions: u32,
    /// The number of variables of the formula.
    pub variables: u32,
    /// The number of clauses of the formula.
    pub clauses: u64,
}

impl Counts {
    /// Writes the comment lines and the `p cnf` line of the formula, or of the formula of `branch`
    /// if one is given. `values` are the possible outputs.
    pub fn head(
        self,
        alloc: Global,
        branch: Option<Branch>,
        values: Mask,
    ) -> Result<String, AllocError>
        ensures { IfOk result (λ text. string_bytes text
            ≡ head_text self (line_in branch.entry) (values_in values)) }
    {
        let mut text = String::new(alloc);
        self.put(&mut text)?;
        put_branch(&mut text, branch)?;
        put_values(&mut text, values)?;
        let width = count(values);
        writeln!(text, "c variable {width} * point + place of the value")?;
        let variables = self.variables;
        let clauses = self.clauses;
        writeln!(text, "p cnf {variables} {clauses}")?;
        Ok(text)
    }

    /// Appends to `text` the comment that names the format, and those that state one number each.
    fn put(self, text: &mut String) -> Result<(), AllocError>
        ensures { OnOk result (string_bytes text.new ≡ string_bytes text.old ++ counts_text self) }
    {
        put_words(text, "c wfcheck formula 1")?;
        put_number(text, "c processes", u32::from(self.processes))?;
        put_number(text, "c rounds", self.rounds)?;
        put_number(text, "c points", self.points)?;
        put_number(text, "c executions", self.executions)
    }
}

/// Appends to `text` the comment that says which branch the formula is of, if `branch` is given.
fn put_branch(text: &mut String, branch: Option<Branch>) -> Result<(), AllocError>
    ensures { OnOk result (string_bytes text.new ≡ string_bytes text.old ++ line_in branch.entry) }
{
    let Some(branch) = branch else {
        return Ok(());
    };
    let number = branch.number;
    let count = branch.count;
    writeln!(text, "c branch {number} of {count}")?;
    Ok(())
}

/// Appends to `text` the comment that lists `values` in ascending order.
fn put_values(text: &mut String, values: Mask) -> Result<(), AllocError>
    ensures { OnOk result (string_bytes text.new
        ≡ string_bytes text.old ++ line (codes "c values") (values_in values)) }
{
    write!(text, "c values")?;
    let mut left = values;
    'values: while let Some(next) = split_first(left) {
        let (value, others) = next;
        left = others;
        write!(text, " {value}")?;
    }
    writeln!(text)?;
    Ok(())
}
