//! Lists of words with commas between their entries, and the areas that they name.
ghost use Rattle.std.specs.Prelude.{◌≡◌, ◌∷◌};
ghost use Rattle.aq_rules.specs.Questions.Spelling.{area_word, assumed_in, assumed_list, between_commas, county_word, sites_word};
ghost use Rattle.aq_words.specs.Commas.{behind_comma};

use aq_base::{Area, Assumed, AssumedList, LAST_EVENT_NUMBER, SiteList};
use aq_rd::{digits_in, number_to, site_word, truth_in};

/// Assumed concurrences, 1 to 64 of them.
pub(crate) fn assumed_list(text: &[u8]) -> Option<AssumedList>
    ensures { result ≡ assumed_list text.now }
{
    let mut list = AssumedList::new();
    let mut left = Some(text);
    while let Some(rest) = left {
        let (entry, behind) = cut_at_comma(rest);
        if !list.add(assumed_in(entry)?) {
            return None;
        }
        left = behind;
    }
    Some(list)
}

/// An event's number without a leading zero, and then `Y` or `N`.
#[tactic(auto, unfolding(aq_rules::specs::Questions::Spelling::assumed_in))]
fn assumed_in(text: &[u8]) -> Option<Assumed>
    ensures { result ≡ assumed_in text.now }
{
    let (number, agreed) = text.split_at(text.len().saturating_sub(1));
    let number = number_to(u64::from(LAST_EVENT_NUMBER), number)?;
    let agreed = truth_in(agreed)?;
    Some(Assumed {
        number: number as u32,
        agreed,
    })
}

/// A county as `SS-CCC`, or 1 to 32 sites, none twice.
#[tactic(auto, unfolding(aq_rules::specs::Questions::Spelling::area_word))]
pub(crate) fn area_word(text: &[u8]) -> Option<Area>
    ensures { result ≡ area_word text.now }
{
    if let Some(county) = county_word(text) {
        return Some(county);
    }
    Some(Area::Sites(sites_word(text)?))
}

#[tactic(auto, unfolding(aq_rules::specs::Questions::Spelling::county_word))]
fn county_word(text: &[u8]) -> Option<Area>
    ensures { result ≡ county_word text.now }
{
    let (state, rest) = text.split_at(text.len().min(2));
    let state = digits_in(2, state)?;
    let county = digits_in(3, rest.strip_prefix(b"-")?)?;
    Some(Area::County {
        state: state as u8,
        county: county as u16,
    })
}

fn sites_word(text: &[u8]) -> Option<SiteList>
    ensures { result ≡ sites_word text.now }
{
    let (first, mut left) = cut_at_comma(text);
    let mut sites = SiteList::new(site_word(first)?);
    while let Some(rest) = left {
        let (site, behind) = cut_at_comma(rest);
        if !sites.add(site_word(site)?) {
            return None;
        }
        left = behind;
    }
    // The list keeps its facts.
    let _ = sites.as_slice();
    Some(sites)
}

/// What stands before the first comma, and what stands behind it if there is one.
fn cut_at_comma(text: &[u8]) -> (&[u8], Option<&[u8]>)
    ensures { between_commas text.now ≡ result.0.now ∷ behind_comma result.1 }
{
    match text.iter().position(|byte| *byte == b',') {
        Some(place) => (&text[..place], Some(&text[place + 1..])),
        None => (text, None),
    }
}
