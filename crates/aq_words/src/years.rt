//! The standards and years of which a question may be asked.
ghost use Rattle.std.specs.Prelude.{◌≡◌, IfSome, IsTrue};
ghost use Rattle.aq_base.specs.Calendar.{is_design_year};
ghost use Rattle.aq_rules.specs.Questions.Spelling.{combined_word, design_year, if_combined};

use aq_base::{FIRST_DESIGN_YEAR, Standard};
use aq_rd::{standard_word, year_in};

/// A standard of whose pollutant sites are combined: not PM10.
#[tactic(auto, unfolding(aq_rules::specs::Questions::Spelling::combined_word))]
pub(crate) fn combined_word(word: &[u8]) -> Option<Standard>
    ensures { result ≡ combined_word word.now }
{
    if_combined(standard_word(word)?)
}

fn if_combined(standard: Standard) -> Option<Standard>
    ensures { result ≡ if_combined standard }
{
    match standard {
        Standard::Pm10Of1987 => None,
        _ => Some(standard),
    }
}

/// A year that ends three years of the profile.
#[tactic(auto, unfolding(aq_rules::specs::Questions::Spelling::design_year))]
pub(crate) fn design_year(word: &[u8]) -> Option<u16>
    ensures year { result ≡ design_year word.now }
    ensures range { IfSome result (λ year. IsTrue (is_design_year year)) }
{
    let year = year_in(word)?;
    if year >= FIRST_DESIGN_YEAR {
        Some(year)
    } else {
        None
    }
}
