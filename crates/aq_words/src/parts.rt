//! What questions ask for, part by part, and how each part is spelled.
ghost use Rattle.std.specs.Prelude.{◌≡◌, map};
ghost use Rattle.aq_rules.specs.Questions.Asking.{is_misspelled, is_sought};
ghost use Rattle.aq_rules.specs.Questions.Table.{parts_of};
ghost use Rattle.aq_words.specs.Parts.{is_spelled, is_wrong, part_of};
ghost use Rattle.aq_words.specs.Texts.{texts_of};

use crate::lists::{area_word, assumed_list};
use crate::years::{combined_word, design_year};
use aq_base::{LAST_LOAD_NUMBER, Topic};
use aq_rd::{day_word, number_to, parameter_in, site_word, standard_word, year_in};

/// A part of a question.
#[derive(Clone, Copy, Debug, PartialEq, Eq)]
pub(crate) enum Part {
    Standard,
    /// A standard of whose pollutant sites are combined.
    PairStandard,
    Site,
    Parameter,
    Year,
    /// A year that ends three years of the profile.
    EndYear,
    Day,
    /// The number of a load.
    Number,
    /// Assumed concurrences.
    List,
    Area,
}

impl Part {
    /// Whether a text that names none is not found, where any other part is to be spelled.
    fn is_sought(self) -> bool
        ensures { result ≡ is_sought (part_of self) }
    {
        matches!(self, Part::Standard | Part::PairStandard | Part::Parameter)
    }

    /// Whether a text does not spell the part, which is to be spelled.
    fn is_wrong(self, text: &[u8]) -> bool
        ensures { result ≡ is_wrong (part_of self) text.now }
    {
        !self.is_sought() && !self.is_spelled(text)
    }

    /// Whether a text spells the part.
    fn is_spelled(self, text: &[u8]) -> bool
        ensures { result ≡ is_spelled (part_of self) text.now }
    {
        match self {
            Part::Standard => standard_word(text).is_some(),
            Part::PairStandard => combined_word(text).is_some(),
            Part::Site => site_word(text).is_some(),
            Part::Parameter => parameter_in(text).is_some(),
            Part::Year => year_in(text).is_some(),
            Part::EndYear => design_year(text).is_some(),
            Part::Day => day_word(text).is_some(),
            Part::Number => number_to(u64::from(LAST_LOAD_NUMBER), text).is_some(),
            Part::List => assumed_list(text).is_some(),
            Part::Area => area_word(text).is_some(),
        }
    }
}

/// The parts of a question, in order.
pub(crate) fn parts_of(topic: Topic) -> &'static [Part]
    ensures { map part_of result.now ≡ parts_of topic }
{
    match topic {
        Topic::Value | Topic::Decisive => &[Part::Standard, Part::Site, Part::EndYear],
        Topic::WhatIf => &[Part::Standard, Part::Site, Part::EndYear, Part::List],
        Topic::Combined => &[Part::PairStandard, Part::Site, Part::EndYear],
        Topic::Area => &[Part::Standard, Part::Area, Part::EndYear],
        Topic::Report => &[Part::Standard, Part::EndYear],
        Topic::Reports => &[Part::EndYear],
        Topic::Export
        | Topic::Flags
        | Topic::Daily
        | Topic::Highest
        | Topic::Completeness
        | Topic::Lines => &[Part::Site, Part::Parameter, Part::Year],
        Topic::Days | Topic::Pm25 | Topic::Pm10 => &[Part::Site, Part::Year],
        Topic::Windows => &[Part::Site, Part::Day],
        Topic::Monitors | Topic::Events => &[Part::Site],
        Topic::Reply => &[Part::Number],
        Topic::Sites | Topic::Loads | Topic::Records => &[],
    }
}

/// Whether one of these texts does not spell the part in its place, which is to be spelled.
pub(crate) fn is_misspelled(parts: &[Part], texts: &[&[u8]]) -> bool
    ensures { result ≡ is_misspelled (map part_of parts.now) (texts_of texts.now) }
{
    for place in 0..parts.len().min(texts.len()) {
        if parts[place].is_wrong(texts[place]) {
            return true;
        }
    }
    false
}
