//! The number under which an observation stands: site, pollutant, POC and hour in decimal places.
ghost use Rattle.std.specs.Prelude.{◌≡◌, ◌&&◌, ◌<ℤ◌, ◌≤ℤ◌, true, ℤ, pos, ◌+ℤ◌, ◌*ℤ◌, Some, None};
ghost use Rattle.sqlite_sql.specs.Numeral.{fits_i64, if_fits};
ghost use Rattle.aq_tables.specs.Number.{KeepPlaces, lies_below, number_at, number_with, site_in, pollutant_in, poc_in, hour_in};

/// The number of a key, in nine places behind the site: one for the pollutant, two for the POC, and six for
/// the hour from 1990-01-01; a row counts its hour from 2000-01-01. Nothing if a part has more places or a
/// column cannot hold the number.
pub(crate) fn number_of(site: &i64, pollutant: &i64, poc: &i64, hour: &i64) -> Option<i64>
    ensures { result ≡ number_at site.now pollutant.now poc.now hour.now }
{
    let hours = hour.checked_add(87_648)?;
    if !have_places(pollutant, poc, &hours) {
        return None;
    }
    joined(site, *pollutant * 100_000_000 + *poc * 1_000_000 + hours)
}

/// Whether the parts behind a site keep to their places.
fn have_places(pollutant: &i64, poc: &i64, hours: &i64) -> bool
    ensures { result ≡ (lies_below pollutant.now 10 && lies_below poc.now 100 && lies_below hours.now 1000000) }
{
    lies_below(pollutant, 10) && lies_below(poc, 100) && lies_below(hours, 1_000_000)
}

/// Whether a number is not below 0 and lies below a bound.
fn lies_below(number: &i64, bound: u32) -> bool
    ensures { result ≡ lies_below number.now bound }
{
    0 <= *number && *number < i64::from(bound)
}

/// A site with the nine places behind it, if 64 bits hold that.
fn joined(site: &i64, behind: i64) -> Option<i64>
    requires from { pos 0 ≤ℤ behind }
    requires below { behind <ℤ pos 1000000000 }
    ensures { result ≡ if_fits (site.now *ℤ pos 1000000000 +ℤ behind) }
{
    i64::try_from(i128::from(*site) * 1_000_000_000 + i128::from(behind)).ok()
}

/// The site of a number.
pub(crate) fn site_of(number: &i64) -> i64
    ensures { result ≡ site_in number.now }
{
    number.div_euclid(1_000_000_000)
}

/// The pollutant of a number.
pub(crate) fn pollutant_of(number: &i64) -> i64
    ensures { result ≡ pollutant_in number.now }
{
    number.rem_euclid(1_000_000_000) / 100_000_000
}

/// The POC of a number.
pub(crate) fn poc_of(number: &i64) -> i64
    ensures { result ≡ poc_in number.now }
{
    number.rem_euclid(1_000_000_000) / 1_000_000 % 100
}

/// The hour of a number, as a row counts it.
pub(crate) fn hour_of(number: &i64) -> i64
    ensures { result ≡ hour_in number.now }
{
    number.rem_euclid(1_000_000_000) % 1_000_000 - 87_648
}

/// A key that has a number is the key of that number, and a column can hold it.
pub fn keys_are_those_of_their_numbers()
    ensures key { (site pollutant poc hour number : ℤ) → number_at site pollutant poc hour ≡ Some number
        → (site_in number ≡ site) × (pollutant_in number ≡ pollutant) × (poc_in number ≡ poc) × (hour_in number ≡ hour) }
    ensures fits { (site pollutant poc hour number : ℤ) → number_at site pollutant poc hour ≡ Some number → fits_i64 number ≡ true }
{}

/// A number that a column can hold is the number of its key.
pub fn numbers_are_those_of_their_keys()
    ensures { (number : ℤ) → fits_i64 number ≡ true → number_at (site_in number) (pollutant_in number) (poc_in number) (hour_in number) ≡ Some number }
{}

/// A key has a number if its pollutant is 0 to 9, its POC 0 to 99, its hour from 1990-01-01 on 0 to 999,999, and
/// a column can hold what these places make with the site. Any other key has none.
pub fn keys_that_have_a_number()
    ensures some { (site pollutant poc hour : ℤ) → KeepPlaces pollutant poc (hour +ℤ pos 87648) → fits_i64 (number_with site pollutant poc hour) ≡ true
        → number_at site pollutant poc hour ≡ Some (number_with site pollutant poc hour) }
    ensures none { (site pollutant poc hour : ℤ) → (KeepPlaces pollutant poc (hour +ℤ pos 87648) → fits_i64 (number_with site pollutant poc hour) ≡ true → ⊥)
        → number_at site pollutant poc hour ≡ None }
{}
