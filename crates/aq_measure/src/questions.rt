//! What is asked about the events of a site whose hours are made up.
ghost use Rattle.std.specs.Prelude.{◌≡◌, ◌<◌};

use crate::designs::number_of;
use crate::made_up::{LAST, MOST_MONITORS, fill};
use crate::smoke::{add_elsewhere, add_events};
use aq_base::{Assumed, AssumedList, Memory, Pollutant, SiteId, Standard, Steps, Verdict};
use aq_design::what_if::{DecisiveEvents, decisive, what_if};
use aq_design::{FromShelf, design_value};
use aq_registry::Registry;
use aq_shelf::Shelf;
use aq_verdict::DesignValue;
use std::alloc::Global;
use std::marker::Brand;
use std::sync::ledger::{Blank, Ledger};

/// A question about a site with a hundred events.
#[derive(Clone, Copy)]
pub enum Question {
    /// The design value.
    Value,
    /// The design value if the events from one number to another were concurred in, at most 64.
    Assumed(u32, u32),
    /// The events that decide.
    Decisive,
    /// The same with a hundred further events elsewhere.
    Elsewhere,
}

/// The sums over all runs: of the design values, of the verdicts `Met` and `NotMet`, and of the events that
/// decide and their numbers. The verdicts of these are those with the event turned round.
#[derive(Drop)]
pub struct Answers {
    pub values: i64,
    pub met: u64,
    pub unmet: u64,
    pub events: u64,
    pub numbers: u64,
}

impl Answers {
    fn new() -> Answers {
        Answers {
            values: 0,
            met: 0,
            unmet: 0,
            events: 0,
            numbers: 0,
        }
    }

    fn add_value(&mut self, value: &DesignValue) {
        self.values = self.values.wrapping_add(number_of(value.value()));
        self.add_verdict(value.verdict());
    }

    fn add_events(&mut self, events: &DecisiveEvents) {
        for event in events.as_slice() {
            self.events = self.events.wrapping_add(1);
            self.numbers = self.numbers.wrapping_add(u64::from(event.number));
            self.add_verdict(event.verdict);
        }
    }

    fn add_verdict(&mut self, verdict: Verdict) {
        self.met = self.met.wrapping_add(u64::from(verdict == Verdict::Met));
        self.unmet = self
            .unmet
            .wrapping_add(u64::from(verdict == Verdict::NotMet));
    }
}

/// Asks a question of a site with eight monitors, again and again. Each hour of three years has a value at
/// each of them.
pub fn ask(alloc: Global, question: Question, runs: u32) -> Result<Answers, Memory> {
    let site = SiteId::new(6, 37, 1103).ok_or(Memory)?;
    let other = SiteId::new(6, 37, 1104).ok_or(Memory)?;
    let mut shelf = Shelf::new(alloc);
    let mut registry = Registry::new(alloc);
    fill(
        &mut shelf,
        &mut registry,
        site,
        Pollutant::Ozone,
        MOST_MONITORS,
    )?;
    add_events(&mut shelf, &mut registry, site, MOST_MONITORS)?;
    if let Question::Elsewhere = question {
        add_elsewhere(&mut registry, site, other)?;
    }
    let source = FromShelf {
        shelf: &shelf,
        registry: &registry,
    };
    repeated::<Brand>(alloc, &source, site, question, runs, Blank::new(1))
}

/// Asks it so many times.
fn repeated<L: Ledger>(
    alloc: Global,
    source: &FromShelf<'_>,
    site: SiteId,
    question: Question,
    runs: u32,
    blank: Blank,
) -> Result<Answers, Memory>
    requires name { blank.name ≡ L.name }
    requires parts { blank.parts ≡ L.parts }
    requires some { 0 < L.parts }
{
    let mut steps = Steps::<L>::new(blank);
    let mut answers = Answers::new();
    for _ in 0..runs {
        answer(alloc, source, site, question, &mut steps, &mut answers)?;
    }
    Ok(answers)
}

/// Adds the answer to a question.
fn answer<L: Ledger>(
    alloc: Global,
    source: &FromShelf<'_>,
    site: SiteId,
    question: Question,
    steps: &mut Steps<L>,
    answers: &mut Answers,
) -> Result<(), Memory> {
    let FromShelf { shelf, registry } = *source;
    let standard = Standard::Ozone2015;
    match question {
        Question::Value => {
            answers.add_value(&design_value(source, standard, site, LAST, steps));
        }
        Question::Assumed(first, last) => {
            let assumed = concurred(first, last);
            let value = what_if(
                shelf,
                registry,
                assumed.as_slice(),
                standard,
                site,
                LAST,
                steps,
            );
            answers.add_value(&value.map_err(|_| Memory)?);
        }
        Question::Decisive | Question::Elsewhere => {
            let events = decisive(alloc, shelf, registry, standard, site, LAST, steps);
            answers.add_events(&events.map_err(|_| Memory)?);
        }
    }
    Ok(())
}

/// Concurrences in the events from one number to another.
fn concurred(first: u32, last: u32) -> AssumedList {
    let mut assumed = AssumedList::new();
    for number in first..last.saturating_add(1) {
        let _ = assumed.add(Assumed {
            number,
            agreed: true,
        });
    }
    assumed
}
