//! A case that is screened, with what is kept of it for every outage.
ghost use Rattle.std.specs.Prelude.{◌≡◌, IfOk};
ghost use Rattle.grid_screen.specs.Findings.{CaseFits, AreFigures};

use crate::Figures;
use crate::find::{figures_without, screening_of};
use grid_core::Case;
use grid_ids::Memory;
use grid_outages::Screening;
use std::alloc::Global;
use std::marker::Model;

/// A case with what its levels and branches give to every outage, and its figures: made once, and lent to each list
/// that is screened. It is seen as the case.
#[derive(Drop)]
pub struct ScreenedCase<'a> {
    pub(crate) case: &'a Case,
    pub(crate) kept: Screening,
    pub(crate) before: Figures,
}

impl<'a> Model for ScreenedCase<'a> {
    ghost use Rattle.grid_core.specs.declared.case.Case.{Case};
    ghost use Rattle.grid_screen.specs.Findings.{CaseFits, AreFigures};
    ghost use Rattle.grid_screen.specs.Kept.{IsKeptOf};

    ghost Value = { Case };

    ghost view = { λ s. s.case.now };

    ghost invariant = { λ s. CaseFits s.case.now × IsKeptOf s.case.now s.kept × AreFigures s.case.now s.before };
}

impl<'a> ScreenedCase<'a> {
    /// A case, whose states have one row per level and one flag per switch of its structure. The time is that of a view
    /// of each level, of a look-up for each end of a branch, and of the figures.
    pub fn of(alloc: Global, case: &'a Case) -> Result<ScreenedCase<'a>, Memory>
        requires { CaseFits case.now }
        ensures { IfOk result (λ screened. screened ≡ case.now) }
    {
        let kept = screening_of(alloc, case)?;
        let before = figures_without(alloc, case, &kept, &[])?;
        Ok(ScreenedCase { case, kept, before })
    }

    /// The case.
    pub fn case(&self) -> &'a Case
        ensures { result.now ≡ self.now }
    {
        self.case
    }

    /// Its figures.
    pub fn figures(&self) -> Figures
        ensures { AreFigures self.now result }
    {
        self.before
    }
}
