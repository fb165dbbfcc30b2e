//! How the cases came out.

/// How many cases were tried, and how many of them differed.
#[derive(Drop)]
pub struct Tally {
    pub cases: u32,
    pub failures: u32,
}

impl Tally {
    /// Counts a case.
    pub fn add(&mut self, is_well: bool) {
        self.cases = self.cases.saturating_add(1);
        if !is_well {
            self.failures = self.failures.saturating_add(1);
        }
    }
}
