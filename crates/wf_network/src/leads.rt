//! Chooses for each rule the execution by whose number the kernel cache knows its table.

ghost use Rattle.std.specs.Prelude.{◌≡◌, ◌<◌, ◌≤◌, ◌^◌, get_or, length, IfOk};
ghost use Rattle.wf_model.specs.Limits.{most_executions};
ghost use Rattle.wf_network.specs.Leads.{IsOfRule};
ghost use Rattle.wf_network.specs.Problems.{AreAlike, AreLeads, IsLead, no_rule};

use crate::problem::Rule;
use std::alloc::{AllocError, Global};
use wf_complex::PackedExecution;

/// Returns for each rule the number of an execution whose rule has the same table. Rules that are
/// linked by `Rule::like` get the same number. A rule gets the length of `executions` if no such
/// execution is found.
pub(crate) fn leads(
    alloc: Global,
    rules: &[Rule],
    executions: &[PackedExecution],
) -> Result<Vec<u32>, AllocError>
    requires alike { AreAlike rules.now }
    requires few { length executions.now ≤ most_executions }
    requires few_rules { length rules.now < 2 ^ 32 }
    ensures long { IfOk result (λ leads. length leads.items ≡ length rules.now) }
    ensures led { IfOk result (λ leads. AreLeads rules.now executions.now leads.items) }
{
    let mut leads = Vec::with_capacity(alloc, rules.len())?;
    for number in 0..rules.len() {
        let lead = lead_of(rules, executions, &leads, number);
        leads.push_reserved(lead);
    }
    Ok(leads)
}

/// Returns the entry of `leads` for the rule `number`, given in `leads` the entries of the rules
/// before it.
fn lead_of(rules: &[Rule], executions: &[PackedExecution], leads: &[u32], number: usize) -> u32
    requires alike { AreAlike rules.now }
    requires few { length executions.now ≤ most_executions }
    requires few_rules { length rules.now < 2 ^ 32 }
    requires number { number < length rules.now }
    requires long { length leads.now ≡ number }
    requires led { AreLeads rules.now executions.now leads.now }
    ensures { IsLead rules.now executions.now (get_or rules.now number no_rule) result }
{
    match leads.get(rules[number].like as usize) {
        Some(lead) => *lead,
        None => first_of(executions, number as u32),
    }
}

/// Returns the number of the first execution whose input simplex has the rule `rule`, or the length
/// of `executions` if there is none. A binary search: the executions are in ascending order of
/// their rules.
fn first_of(executions: &[PackedExecution], rule: u32) -> u32
    requires few { length executions.now ≤ most_executions }
    ensures { IsOfRule executions.now rule result }
{
    let first = executions.partition_point(|execution| execution.simplex < rule);
    if first < executions.len() && executions[first].simplex == rule {
        return first as u32;
    }
    executions.len() as u32
}
