//! How many of a month's due samples a monitor has.
ghost use Rattle.std.specs.Prelude.{◌≡◌, ◌+◌, ◌≤◌};
ghost use Rattle.std.specs.Int.{IsInRange};
ghost use Rattle.aq_base.specs.declared.day.TheConstants.{FIRST_YEAR, LAST_YEAR};
ghost use Rattle.aq_rules.specs.Listed.Completeness.{counts_with, due_hours};
ghost use Rattle.aq_rules.specs.Listed.Places.{days_of_month};
ghost use Rattle.aq_series.specs.OfficeView.{office_of};

use crate::due_samples::due_samples;
use crate::month_days::month_span;
use crate::month_tally::standing_samples;
use aq_base::{Duration, MonitorId, Steps};
use aq_registry::Registry;
use aq_shelf::Shelf;
use std::marker::Model;
use std::sync::ledger::Ledger;

/// How many samples of a month are due, how many of these have a value or a null code, how many do not
/// stand, and how many stand with a value where nothing is due (own).
#[derive(Clone, Copy, Debug, PartialEq, Eq)]
pub struct MonthCounts {
    pub due: u32,
    pub valued: u32,
    pub null: u32,
    pub missing: u32,
    pub extra: u32,
}

impl Model for MonthCounts {
    ghost use Rattle.aq_rules.specs.Listed.Completeness as completeness;

    ghost Value = { completeness.MonthCounts };

    ghost view = { λ counts. record { due = counts.due; valued = counts.valued; null = counts.null; missing = counts.missing; extra = counts.extra } };

    ghost inverse = { λ counts. record { due = counts.due; valued = counts.valued; null = counts.null; missing = counts.missing; extra = counts.extra } };
}

impl MonthCounts {
    ghost use Rattle.std.specs.Prelude.{◌≡◌};
    ghost use Rattle.aq_rules.specs.Listed.Completeness as completeness;

    /// Those with a value in percent of those due, to the nearest whole one, halves upwards; none where
    /// nothing is due (own).
    pub fn percent(&self) -> Option<i64>
        ensures { result ≡ completeness.percent self.now }
    {
        if self.due == 0 {
            return None;
        }
        let due = i64::from(self.due);
        Some((200 * i64::from(self.valued) + due) / (2 * due))
    }
}

/// What a monitor whose samples last so long has of a month, by one walk over its span of the month.
pub(crate) fn month_counts<L: Ledger>(
    shelf: &Shelf,
    registry: &Registry,
    monitor: &MonitorId,
    duration: Duration,
    year: u16,
    month: u8,
    steps: &mut Steps<L>,
) -> MonthCounts
    requires year { IsInRange FIRST_YEAR LAST_YEAR year }
    requires month { IsInRange 1 12 month }
    ensures { result ≡ counts_with (office_of registry.now shelf.now) monitor.now year month (due_hours (office_of registry.now shelf.now) monitor.now duration (days_of_month year month)) }
{
    let span = month_span(year, month);
    let due = due_samples(registry, monitor, duration, span.first, span.days);
    let tally = standing_samples(
        shelf, registry, monitor, duration, span.first, span.days, steps,
    );
    let missing = due - tally.standing;
    MonthCounts {
        due,
        valued: tally.valued,
        null: tally.null,
        missing,
        extra: tally.extra,
    }
}
