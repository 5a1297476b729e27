//! How far a run has come, with its bytes counted.

ghost use Rattle.std.specs.Prelude.{◌≡◌};
ghost use Rattle.runner.specs.Sizes.{IsCounted};
ghost use Rattle.runner.specs.Runs.{can_go_on, ending_at, runs_program};
ghost use Rattle.runner.specs.declared.stage.State.TheVariants.{Live};

use crate::stage::{Ending, Making, Stage};
use std::marker::Model;

/// How far a run has come that is not over, where the bytes that were taken are counted, and are
/// not too many.
#[derive(Drop)]
pub(crate) struct Going {
    stage: Stage,
}

impl Model for Going {
    ghost use Rattle.runner.specs.Sizes.{IsCounted};
    ghost use Rattle.runner.specs.declared.stage.Stage.{Stage};

    ghost Value = { Stage };

    ghost view = { λ g. g.stage };

    ghost invariant = { λ g. IsCounted g.stage };
}

impl Going {
    pub(crate) fn new(stage: Stage) -> Going
        requires { IsCounted stage }
        ensures { result ≡ stage }
    {
        Going { stage }
    }

    pub(crate) fn stage(self) -> Stage
        ensures same { result ≡ self }
        ensures counted { IsCounted result }
    {
        let Going { stage } = self;
        stage
    }

    /// What is to be done for it where it is to be over.
    pub(crate) fn ending(&self) -> Option<Ending>
        ensures { result ≡ ending_at self.now }
    {
        self.stage.ending()
    }

    /// Whether its program runs.
    pub(crate) fn runs_program(&self) -> bool
        ensures { result ≡ runs_program (Live self.now) }
    {
        matches!(self.stage, Stage::Running(_))
    }

    /// Whether it can go on at once: it waits neither for room for its folder, nor for its program
    /// to end or to be killed.
    pub(crate) fn can_go_on(&self) -> bool
        ensures { result ≡ can_go_on (Live self.now) }
    {
        !matches!(
            self.stage,
            Stage::Making(Making::Root(_)) | Stage::Running(_) | Stage::Stopping(_)
        )
    }
}
