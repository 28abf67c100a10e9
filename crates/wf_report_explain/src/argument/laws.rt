//! The law of what the steps of an argument cite, proved as the contract of an empty function.

ghost use Rattle.wf_report_explain.specs.Argument.Laws.{EachStepCitesEarlierSteps};

/// States that each step of an argument cites only earlier steps, whatever the lines that the
/// argument is made of.
pub fn each_step_cites_earlier_steps()
    ensures { EachStepCitesEarlierSteps }
{}
