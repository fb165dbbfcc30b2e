//! Writing office lines and the keys of their records.
ghost use Rattle.std.specs.Prelude.{◌≡◌, false, ◌++◌, ◌∷◌, [], decimal, IfOk, IsTrue, OnOk, Some};
ghost use Rattle.aq_base.specs.Decimal.{last_digits};
ghost use Rattle.aq_rules.specs.Lines.Reading.{line_value, OfOffice};
ghost use Rattle.aq_rules.specs.Lines.Canonical.{canonical_office, is_office_line, printed_key, joined, office_texts_of, key_tag, deletion_texts, content_texts, list_texts, site_texts, parameter_text, date_text, truth_text};
ghost use Rattle.aq_rd.specs.Printing.{behind_bars};
ghost use Rattle.aq_forms.specs.OfficeReading.{has_rd_tag};

use aq_base::{Day, Memory, OfficeKey, OfficeLine, OfficeRecord, Pollutant, SiteId};
use aq_cal::last_digits;
use aq_num::write_fixed;
use aq_rd::{duration_name, parameter_name, write_code, write_date, write_field, write_start};
use aq_rules::lines::canonical::canonical_office_lines_are_read_back;
use std::alloc::Global;

/// Writes the one line by which an office line is written (own): all fields of its form, and of a
/// deletion those up to the last of its key, without spaces.
pub fn print_office(alloc: Global, line: &OfficeLine) -> Result<Vec<u8>, Memory>
    ensures canonical { IfOk result (λ text. text.items ≡ canonical_office line.now) }
    ensures no_rd { IfOk result (λ text. has_rd_tag text.items ≡ false) }
    // what a line can spell is read again as it was
    ensures back { IfOk result (λ text. IsTrue (is_office_line line.now) → line_value text.items ≡ Some (OfOffice line.now)) }
{
    let mut out = Vec::new(alloc);
    write_line(&mut out, line)?;
    canonical_office_lines_are_read_back();
    Ok(out)
}

/// Writes the key under which a record is kept, in its kind's rows (own): the key's fields, the POC
/// in two digits and an event's number in six.
pub fn print_key(alloc: Global, key: &OfficeKey) -> Result<Vec<u8>, Memory>
    ensures { IfOk result (λ text. text.items ≡ printed_key key.now) }
{
    let mut out = Vec::new(alloc);
    write_key(&mut out, key)?;
    Ok(out)
}

#[tactic(auto, unfolding(aq_rules::specs::Lines::Canonical::office_texts))]
fn write_line(out: &mut Vec<u8>, line: &OfficeLine) -> Result<(), Memory>
    ensures { OnOk result (out.new.items ≡ out.old.items ++ canonical_office line.now) }
{
    match line {
        OfficeLine::Put(entry) => write_record(out, b"I", entry),
        OfficeLine::Change(entry) => write_record(out, b"U", entry),
        OfficeLine::Drop(key) => write_front(out, b"D", key),
    }
}

fn write_record(out: &mut Vec<u8>, action: &[u8], entry: &OfficeRecord) -> Result<(), Memory>
    ensures { OnOk result (out.new.items ≡ out.old.items ++ joined (office_texts_of action.now entry.now)) }
{
    write_front(out, action, &entry.key())?;
    write_content(out, entry)?;
    Ok(())
}

// The tag, an action and the fields of a deletion.
#[tactic(auto, using(crate::proofs::OfficePrinted::behind_the_first_bar))]
fn write_front(out: &mut Vec<u8>, action: &[u8], key: &OfficeKey) -> Result<(), Memory>
    ensures { OnOk result (out.new.items ≡ out.old.items ++ joined (key_tag key.now ∷ action.now ∷ deletion_texts key.now)) }
{
    out.extend_from_slice(key_tag(key))?;
    write_field(out, action)?;
    out.push(b'|')?;
    write_deletion(out, key)?;
    Ok(())
}

fn key_tag(key: &OfficeKey) -> &'static [u8]
    ensures { result.now ≡ key_tag key.now }
{
    match key {
        OfficeKey::Monitor { .. } => b"XM",
        OfficeKey::Primary { .. } => b"XP",
        OfficeKey::Schedule { .. } => b"XS",
        OfficeKey::Season { .. } => b"XO",
        OfficeKey::Makeup { .. } => b"XU",
        OfficeKey::Event { .. } => b"XE",
        OfficeKey::Concurrence { .. } => b"XC",
        OfficeKey::Approved { .. } => b"XA",
        OfficeKey::Combined { .. } => b"XB",
    }
}

// The fields of a deletion, after its action.
fn write_deletion(out: &mut Vec<u8>, key: &OfficeKey) -> Result<(), Memory>
    ensures { OnOk result (out.new.items ≡ out.old.items ++ joined (deletion_texts key.now)) }
{
    match key {
        OfficeKey::Monitor { id } => {
            write_series(out, &id.site, id.pollutant)?;
            write_number(out, u32::from(id.poc))?;
            Ok(())
        }
        OfficeKey::Primary {
            site,
            pollutant,
            from,
        } => write_listed(out, site, *pollutant, *from),
        OfficeKey::Schedule {
            site,
            pollutant,
            from,
        } => write_listed(out, site, *pollutant, *from),
        OfficeKey::Season { site, year } => {
            write_site(out, site)?;
            write_field(out, &last_digits::<4>(*year))?;
            Ok(())
        }
        OfficeKey::Makeup { site, missed } => write_listed(out, site, Pollutant::Pm25, *missed),
        OfficeKey::Event { number } | OfficeKey::Concurrence { number } => {
            write_fixed(out, i64::from(*number), 0)
        }
        OfficeKey::Approved { site, day } => write_site_day(out, site, *day),
        OfficeKey::Combined { site, pollutant } => write_series(out, site, *pollutant),
    }
}

// What a record's line has after the fields of its key.
fn write_content(out: &mut Vec<u8>, entry: &OfficeRecord) -> Result<(), Memory>
    ensures { OnOk result (out.new.items ≡ out.old.items ++ behind_bars (content_texts entry.now)) }
{
    match entry {
        OfficeRecord::Monitor {
            duration,
            eligible,
            ..
        } => {
            write_field(out, duration_name(*duration))?;
            write_field(out, truth_name(*eligible))?;
            Ok(())
        }
        OfficeRecord::Primary { poc, .. } => {
            write_number(out, u32::from(*poc))?;
            Ok(())
        }
        OfficeRecord::Schedule {
            interval,
            anchor,
            ..
        } => {
            write_number(out, u32::from(*interval))?;
            write_date(out, *anchor)?;
            Ok(())
        }
        OfficeRecord::Season { first, last, .. } => {
            write_date(out, *first)?;
            write_date(out, *last)?;
            Ok(())
        }
        OfficeRecord::Makeup { makeup, .. } => {
            write_date(out, *makeup)?;
            Ok(())
        }
        OfficeRecord::Event {
            site,
            pollutant,
            first,
            last,
            code,
            ..
        } => {
            out.push(b'|')?;
            write_series(out, site, *pollutant)?;
            write_start(out, *first)?;
            write_start(out, *last)?;
            out.push(b'|')?;
            write_code(out, code)?;
            Ok(())
        }
        OfficeRecord::Concurrence { agreed, .. } => {
            write_field(out, truth_name(*agreed))?;
            Ok(())
        }
        OfficeRecord::Approved { .. } => Ok(()),
        OfficeRecord::Combined { from, joined, .. } => {
            write_date(out, *from)?;
            out.push(b'|')?;
            write_site(out, joined)?;
            Ok(())
        }
    }
}

// A printed key has the fields of a deletion, but for the POC, a make-up record's parameter and an
// event's number.
#[tactic(auto, unfolding(aq_rules::specs::Lines::Canonical::key_texts))]
fn write_key(out: &mut Vec<u8>, key: &OfficeKey) -> Result<(), Memory>
    ensures { OnOk result (out.new.items ≡ out.old.items ++ printed_key key.now) }
{
    match key {
        OfficeKey::Monitor { id } => {
            write_series(out, &id.site, id.pollutant)?;
            write_field(out, &last_digits::<2>(u16::from(id.poc)))?;
            Ok(())
        }
        OfficeKey::Makeup { site, missed } => write_site_day(out, site, *missed),
        OfficeKey::Event { number } | OfficeKey::Concurrence { number } => {
            write_six_digits(out, *number)
        }
        OfficeKey::Primary { .. }
        | OfficeKey::Schedule { .. }
        | OfficeKey::Season { .. }
        | OfficeKey::Approved { .. }
        | OfficeKey::Combined { .. } => write_deletion(out, key),
    }
}

// A site, a parameter and a date.
fn write_listed(
    out: &mut Vec<u8>,
    site: &SiteId,
    pollutant: Pollutant,
    from: Day,
) -> Result<(), Memory>
    ensures { OnOk result (out.new.items ≡ out.old.items ++ joined (list_texts site.now pollutant from)) }
{
    write_series(out, site, pollutant)?;
    write_date(out, from)?;
    Ok(())
}

fn write_site_day(out: &mut Vec<u8>, site: &SiteId, day: Day) -> Result<(), Memory>
    ensures { OnOk result (out.new.items ≡ out.old.items ++ joined (site_texts site.now ++ date_text day ∷ [])) }
{
    write_site(out, site)?;
    write_date(out, day)?;
    Ok(())
}

// A number without leading zeros, after a bar.
fn write_number(out: &mut Vec<u8>, number: u32) -> Result<(), Memory>
    ensures { OnOk result (out.new.items ≡ out.old.items ++ 124 ∷ decimal number) }
{
    out.push(b'|')?;
    write_fixed(out, i64::from(number), 0)?;
    Ok(())
}

// The last six digits of a number.
fn write_six_digits(out: &mut Vec<u8>, number: u32) -> Result<(), Memory>
    ensures { OnOk result (out.new.items ≡ out.old.items ++ last_digits 6 number) }
{
    out.extend_from_slice(&last_digits::<3>((number / 1000 % 1000) as u16))?;
    out.extend_from_slice(&last_digits::<3>((number % 1000) as u16))?;
    Ok(())
}

// The fields of a site and a parameter, without a bar before them.
fn write_series(out: &mut Vec<u8>, site: &SiteId, pollutant: Pollutant) -> Result<(), Memory>
    ensures { OnOk result (out.new.items ≡ out.old.items ++ joined (site_texts site.now ++ parameter_text pollutant ∷ [])) }
{
    write_site(out, site)?;
    write_field(out, parameter_name(pollutant))?;
    Ok(())
}

fn write_site(out: &mut Vec<u8>, site: &SiteId) -> Result<(), Memory>
    ensures { OnOk result (out.new.items ≡ out.old.items ++ joined (site_texts site.now)) }
{
    out.extend_from_slice(&last_digits::<2>(u16::from(site.state())))?;
    write_field(out, &last_digits::<3>(site.county()))?;
    write_field(out, &last_digits::<4>(site.site()))?;
    Ok(())
}

fn truth_name(is_true: bool) -> &'static [u8]
    ensures { result.now ≡ truth_text is_true }
{
    if is_true { b"Y" } else { b"N" }
}
