//! Checks of single multipliers.

ghost use Rattle.wf_tree_steps.specs.Balance.Judge.{Judges, multiplier_fault, multipliers_fault};
ghost use Rattle.wf_tree_steps.specs.Balance.Multipliers.{multiplier_seen, multipliers_seen};

use crate::balance::fault::BalanceFault;
use crate::balance::multiplier::Multiplier;
use wf_task::Task;

/// Checks the multipliers in order and fails with the first fault.
pub(crate) fn judge_multipliers(
    task: &Task,
    modulus: u32,
    multipliers: &[Multiplier],
) -> Result<(), BalanceFault>
    ensures { Judges result
        (multipliers_fault task.now modulus 0 (multipliers_seen multipliers.now)) }
{
    'multipliers: for (place, multiplier) in multipliers.iter().enumerate() {
        judge_multiplier(task, modulus, place as u64, multiplier)?;
    }
    Ok(())
}

/// Checks that `multiplier` fits the task and the modulus. Faults name it by the index `place`.
fn judge_multiplier(
    task: &Task,
    modulus: u32,
    place: u64,
    multiplier: &Multiplier,
) -> Result<(), BalanceFault>
    ensures { Judges result
        (multiplier_fault task.now modulus place (multiplier_seen multiplier.now)) }
{
    let simplices = task.inputs().simplices();
    if multiplier.simplex as usize >= simplices.len() {
        return Err(BalanceFault::NoSimplex { multiplier: place });
    }
    let colours = simplices[multiplier.simplex as usize].colours();
    if multiplier.place >= colours {
        return Err(BalanceFault::NoPlace { multiplier: place });
    }
    if multiplier.others.size() + 1 != colours {
        return Err(BalanceFault::OthersLength { multiplier: place });
    }
    if multiplier.weight == 0 || multiplier.weight >= modulus {
        return Err(BalanceFault::WeightRange { multiplier: place });
    }
    Ok(())
}
