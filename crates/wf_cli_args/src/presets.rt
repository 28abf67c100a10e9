//! Chooses a preset by the options of the command line.

ghost use Rattle.std.specs.Prelude.{◌≡◌};
ghost use Rattle.wf_cli_args.specs.Presets.{agreement_asked, inputs_asked, preset_asked, renaming_asked};

use wf_cli::words::{ArgName, UsageError};
use wf_task_presets::{Inputs, Preset};

/// The options of `preset` as they were given.
#[derive(Clone, Copy)]
pub(crate) struct Options {
    pub(crate) processes: u32,
    pub(crate) k: Option<u32>,
    pub(crate) values: Option<u32>,
    pub(crate) names: Option<u32>,
}

impl Options {
    /// Returns the preset of the kind `kind` with these options.
    ///
    /// # Errors
    ///
    /// Returns the mistake if `kind` is unknown, if an option that it needs is missing, or if an
    /// option of the other kind is given.
    pub(crate) fn preset(self, kind: &str) -> Result<Preset, UsageError>
        ensures { result ≡ preset_asked kind.now self }
    {
        if kind == "set-agreement" {
            self.set_agreement()
        } else if kind == "renaming" {
            self.renaming()
        } else {
            Err(UsageError::UnknownKind)
        }
    }

    /// Returns the set agreement with these options, which needs `--k` and excludes `--names`.
    fn set_agreement(self) -> Result<Preset, UsageError>
        ensures { result ≡ agreement_asked self.processes self.k self.values self.names }
    {
        match (self.k, self.names) {
            (_, Some(_)) => Err(UsageError::Conflict(ArgName::Names, ArgName::SetAgreement)),
            (None, None) => Err(UsageError::Needs(ArgName::SetAgreement, ArgName::K)),
            (Some(k), None) => Ok(Preset::SetAgreement {
                processes: self.processes,
                k,
                inputs: inputs(self.values),
            }),
        }
    }

    /// Returns the renaming with these options, which needs `--names` and excludes `--k` and
    /// `--values`.
    fn renaming(self) -> Result<Preset, UsageError>
        ensures { result ≡ renaming_asked self.processes self.k self.values self.names }
    {
        match (self.k, self.values, self.names) {
            (Some(_), _, _) => Err(UsageError::Conflict(ArgName::K, ArgName::Renaming)),
            (None, Some(_), _) => Err(UsageError::Conflict(ArgName::Values, ArgName::Renaming)),
            (None, None, None) => Err(UsageError::Needs(ArgName::Renaming, ArgName::Names)),
            (None, None, Some(names)) => Ok(Preset::Renaming {
                processes: self.processes,
                names,
            }),
        }
    }
}

/// Returns the inputs of set agreement: each process may have any of `values` values, or has its
/// own number if `values` is `None`.
fn inputs(values: Option<u32>) -> Inputs
    ensures { result ≡ inputs_asked values }
{
    match values {
        Some(values) => Inputs::All(values),
        None => Inputs::Own,
    }
}
