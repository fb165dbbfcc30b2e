//! Sites, days and standards as words of a command or a path.
ghost use Rattle.std.specs.Prelude.{◌≡◌, bytes_eq, find};
ghost use Rattle.std.specs.Option.{option_map};
ghost use Rattle.aq_base.specs.Standard.{standard_name};
ghost use Rattle.aq_rules.specs.Questions.Spelling.{behind_hyphen, day_word, site_word, standard_word};

use crate::spellings::{date_of, front, site_in};
use aq_base::{Day, SiteId, Standard};

/// A site as `SS-CCC-NNNN`, in digits.
#[tactic(auto, unfolding(aq_rules::specs::Questions::Spelling::site_word))]
pub fn site_word(word: &[u8]) -> Option<SiteId>
    ensures { result ≡ site_word word.now }
{
    let (state, rest) = front(2, word);
    let (county, rest) = front(3, behind_hyphen(rest)?);
    let number = behind_hyphen(rest)?;
    site_in(state, county, number)
}

/// A date of the profile as `YYYY-MM-DD`.
#[tactic(auto, unfolding(aq_rules::specs::Questions::Spelling::day_word))]
pub fn day_word(word: &[u8]) -> Option<Day>
    ensures { result ≡ day_word word.now }
{
    let (year, rest) = front(4, word);
    let (month, rest) = front(2, behind_hyphen(rest)?);
    let day = behind_hyphen(rest)?;
    date_of(year, month, day)
}

fn behind_hyphen(text: &[u8]) -> Option<&[u8]>
    ensures { option_map (λ rest. rest.now) result ≡ behind_hyphen text.now }
{
    text.strip_prefix(b"-")
}

/// A standard by its name.
pub fn standard_word(word: &[u8]) -> Option<Standard>
    ensures { result ≡ standard_word word.now }
{
    first_named(&Standard::all(), word)
}

fn first_named(standards: &[Standard], name: &[u8]) -> Option<Standard>
    ensures { result ≡ find (λ standard. bytes_eq (standard_name standard) name.now) standards.now }
{
    for standard in standards {
        if standard.name().as_bytes() == name {
            return Some(*standard);
        }
    }
    None
}
