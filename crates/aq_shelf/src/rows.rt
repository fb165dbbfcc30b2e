//! All observations that stand.
ghost use Rattle.std.specs.Iterator.{YieldsFirst, item_count};

use crate::hours::Hours;
use crate::stretch::Stretch;
use aq_base::{Hour, MonitorId, ObsKey, Observation};
use std::cmp::Reverse;
use std::collections::btree_map::Iter;
use std::iter::{DoubleEndedIterator, Iterator};
use std::marker::Model;

/// The observations that stand, in rising order of keys, each with its key. Contracts see the list of
/// what is left.
#[derive(Drop)]
pub struct Rows<'a> {
    /// The monitor of the stretch that is gone through, and what is left of it.
    monitor: Option<MonitorId>,
    hours: &'a [(Hour, Observation)],
    /// The stretches after it, latest first.
    behind: Iter<'a, Reverse<Stretch>, Hours>,
}

impl<'a> Model for Rows<'a> {
    ghost use Rattle.std.specs.Prelude.{◌≡◌, List, [], ◌++◌, IfNone};
    ghost use Rattle.aq_base.specs.declared.observation.ObsKey.{ObsKey};
    ghost use Rattle.aq_base.specs.declared.observation.Observation.{Observation};
    ghost use Rattle.aq_shelf.specs.Stretches.{joined, rows_under};

    ghost Value = { List (ObsKey × Observation) };

    ghost view = { λ rows. rows_under rows.monitor rows.hours.now ++ joined rows.behind };

    ghost invariant = { λ rows. IfNone rows.monitor (rows.hours.now ≡ []) };
}

impl<'a> Rows<'a> {
    ghost use Rattle.std.specs.Prelude.{◌≡◌};
    ghost use Rattle.aq_shelf.specs.Stretches.{joined};

    /// The rows of stretches, which are latest first.
    pub(crate) fn new(stretches: Iter<'a, Reverse<Stretch>, Hours>) -> Rows<'a>
        ensures { result ≡ joined stretches.entry }
    {
        Rows {
            monitor: None,
            hours: &[],
            behind: stretches,
        }
    }
}

impl<'a> Iterator for Rows<'a> {
    type Item = (ObsKey, Observation);

    ghost next_gives = { YieldsFirst (λ rest. rest) };

    ghost remaining = { item_count (λ rest. rest) };

    fn next(&mut self) -> Option<(ObsKey, Observation)> {
        while self.hours.is_empty() {
            let (stretch, hours) = self.behind.next_back()?;
            self.monitor = Some(stretch.0.monitor);
            self.hours = hours.as_slice();
        }
        let monitor = self.monitor?;
        let first = &self.hours[0];
        self.hours = &self.hours[1..];
        let key = ObsKey {
            monitor,
            hour: first.0,
        };
        Some((key, first.1))
    }
}
