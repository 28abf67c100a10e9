//! Laws that relate the named tasks to the definitions in the literature.

ghost use Rattle.wf_task_presets.specs.Laws.{RenamingDecidesDifferentNames, SetAgreementDecidesFewInputs};

/// States that a set agreement task allows exactly these decisions: each participant decides a
/// value, each decided value is the input of a participant, and at most `k` different values are
/// decided.
pub fn set_agreement_decides_few_inputs()
    ensures { SetAgreementDecidesFewInputs }
{}

/// States that a renaming task allows exactly these decisions: each participant decides a name
/// below the bound, and no two decide the same name.
pub fn renaming_decides_different_names()
    ensures { RenamingDecidesDifferentNames }
{}
