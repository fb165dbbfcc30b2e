//! A question over the office that a load leaves, for whoever asks nothing else of it.
ghost use Rattle.std.specs.Prelude.{◌≡◌, ◌+◌, ◌≤◌, is_ok, IfOk};
ghost use Rattle.aq_rules.specs.Ozone.OzoneDay as ozone;
ghost use Rattle.aq_rules.specs.Questions.Answer.{is_registered};
ghost use Rattle.aq_book.specs.Staged.{office_with, Fits};

use crate::book::Book;
use crate::fault::UnknownSite;
use aq_base::{Day, Memory, SiteId, Steps};
use aq_ozone::{DayWindows, day_windows};
use aq_staging::{Staged, registry_after};
use std::sync::ledger::Ledger;

impl Book {
    /// The seventeen 8-hour averages of a day of a site (40 CFR Part 50, Appendix U, 3(b)) in the office that a
    /// load leaves which fits the book: one that was staged on it. They are read from the observations in at
    /// most 192 steps, and no cell is brought up to date for them. The book is gone.
    pub fn windows_after<L: Ledger>(
        self,
        staged: Staged,
        site: SiteId,
        day: Day,
        steps: &mut Steps<L>,
    ) -> Result<Result<DayWindows, UnknownSite>, Memory>
        requires { Fits staged self }
        ensures windows { IfOk result (λ found. IfOk found
            (λ windows. windows ≡ ozone.windows (office_with staged self) site day)) }
        ensures registered { IfOk result
            (λ found. is_ok found ≡ is_registered (office_with staged self) site) }
        ensures steps { steps.new ≤ steps.old + 192 }
    {
        let taken = staged.onto(self.shelf)?;
        let registry = registry_after(&taken.registry, &self.registry);
        if !registry.has_site(site) {
            return Ok(Err(UnknownSite));
        }
        Ok(Ok(day_windows(&taken.shelf, registry, site, day, steps)))
    }
}
