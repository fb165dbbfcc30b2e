//! Reading office lines.
ghost use Rattle.std.specs.Prelude.{◌≡◌, false, IfOk, IfErr, IsTrue, OnOk, OnErr, Some, None};
ghost use Rattle.aq_rules.specs.Lines.Canonical.{is_office_line};
ghost use Rattle.aq_rules.specs.Lines.Reading.{reading_rule, line_value, OfOffice};
ghost use Rattle.aq_rd.specs.RdReading.{ReadsLine};
ghost use Rattle.aq_rd.specs.Tags.{tag_value};
ghost use Rattle.aq_forms.specs.Actions.{action_value};
ghost use Rattle.aq_forms.specs.OfficeReading.{has_rd_tag, office_reading, form_reading, action_reading, record_reading, key_reading, xm_reading, xp_reading, xp_key_reading, xs_reading, xs_key_reading, xo_reading, xo_key_reading, xu_reading, xu_key_reading, xe_reading, event_reading, xe_key_reading, xc_reading, xa_reading, xa_key_reading, xb_reading, xb_key_reading};

use crate::forms::{has_wrong_count, is_makeup, is_pair, is_season, is_span};
use crate::spellings::{
    Action, action_for, event_code_in, event_number_in, interval_in, parameter_of, primary_in,
};
use aq_base::{Hour, MonitorId, OfficeKey, OfficeLine, OfficeRecord, Pollutant, Rule, SiteId};
use aq_cal::hour_of;
use aq_rd::{
    Fields, Tag, date_in, duration_in, parameter_in, poc_in, site_in, tag_in, time_in, truth_in,
    year_in,
};
use aq_rules::lines::canonical::what_a_line_spells_is_in_range;

/// Reads a line of one of the office's forms, or one whose first field is no tag (own). It is
/// refused under the reading rule with the smallest number that it breaks. It takes no memory.
pub fn read_office(line: &[u8]) -> Result<OfficeLine, Rule>
    requires { has_rd_tag line.now ≡ false }
    ensures ok { IfOk result (λ x. line_value line.now ≡ Some (OfOffice x)) }
    ensures unbroken { OnOk result (reading_rule line.now ≡ None) }
    ensures rule { IfErr result (λ r. reading_rule line.now ≡ Some r) }
    ensures refused { OnErr result (line_value line.now ≡ None) }
    ensures spelled { IfOk result (λ x. IsTrue (is_office_line x)) }
{
    read_line(line)
}

fn read_line(line: &[u8]) -> Result<OfficeLine, Rule>
    requires { has_rd_tag line.now ≡ false }
    ensures { ReadsLine OfOffice line.now result }
{
    let read = read_in_order(line);
    what_a_line_spells_is_in_range();
    read
}

#[tactic(auto, unfolding(crate::specs::OfficeReading::office_reading))]
fn read_in_order(line: &[u8]) -> Result<OfficeLine, Rule>
    ensures { result ≡ office_reading line.now }
{
    let texts = Fields::new(line)?;
    match tag_in(texts.field(1)) {
        Some(tag) => read_form(tag, &texts),
        None => Err(Rule::BadTag),
    }
}

// In the order of the rules.
#[tactic(auto, unfolding(crate::specs::OfficeReading::form_reading))]
fn read_form(tag: Tag, texts: &Fields<'_>) -> Result<OfficeLine, Rule>
    ensures { result ≡ form_reading (tag_value tag) texts.now }
{
    if has_wrong_count(tag, texts) {
        return Err(Rule::FieldCount);
    }
    match action_for(tag, texts.field(2)) {
        Some(action) => read_action(tag, action, texts),
        None => Err(Rule::BadAction),
    }
}

fn read_action(tag: Tag, action: Action, texts: &Fields<'_>) -> Result<OfficeLine, Rule>
    ensures { result ≡ action_reading (tag_value tag) (action_value action) texts.now }
{
    match action {
        Action::Insert => Ok(OfficeLine::Put(read_record(tag, texts)?)),
        Action::Update => Ok(OfficeLine::Change(read_record(tag, texts)?)),
        Action::Delete => Ok(OfficeLine::Drop(read_key(tag, texts)?)),
    }
}

fn read_record(tag: Tag, texts: &Fields<'_>) -> Result<OfficeRecord, Rule>
    ensures { result ≡ record_reading (tag_value tag) texts.now }
{
    match tag {
        Tag::Rd => Err(Rule::BadTag),
        Tag::Xm => read_monitor(texts),
        Tag::Xp => read_primary(texts),
        Tag::Xs => read_schedule(texts),
        Tag::Xo => read_season(texts),
        Tag::Xu => read_makeup(texts),
        Tag::Xe => read_event(texts),
        Tag::Xc => read_concurrence(texts),
        Tag::Xa => read_approved(texts),
        Tag::Xb => read_combined(texts),
    }
}

// The forms of monitors and concurrences have no deletions.
fn read_key(tag: Tag, texts: &Fields<'_>) -> Result<OfficeKey, Rule>
    ensures { result ≡ key_reading (tag_value tag) texts.now }
{
    match tag {
        Tag::Rd => Err(Rule::BadTag),
        Tag::Xm | Tag::Xc => Err(Rule::BadAction),
        Tag::Xp => read_primary_key(texts),
        Tag::Xs => read_schedule_key(texts),
        Tag::Xo => read_season_key(texts),
        Tag::Xu => read_makeup_key(texts),
        Tag::Xe => read_event_key(texts),
        Tag::Xa => read_approved_key(texts),
        Tag::Xb => read_combined_key(texts),
    }
}

#[tactic(auto, unfolding(crate::specs::OfficeReading::xm_reading))]
fn read_monitor(texts: &Fields<'_>) -> Result<OfficeRecord, Rule>
    ensures { result ≡ xm_reading texts.now }
{
    let site = site_in(texts.field(3), texts.field(4), texts.field(5)).ok_or(Rule::BadSite)?;
    let pollutant = parameter_in(texts.field(6)).ok_or(Rule::ParameterOutOfProfile)?;
    let poc = poc_in(texts.field(7)).ok_or(Rule::BadPoc)?;
    let duration = duration_in(pollutant, texts.field(8)).ok_or(Rule::BadDuration)?;
    let eligible = truth_in(texts.field(9)).ok_or(Rule::BadCode)?;
    let id = MonitorId {
        site,
        pollutant,
        poc,
    };
    Ok(OfficeRecord::Monitor {
        id,
        duration,
        eligible,
    })
}

#[tactic(auto, unfolding(crate::specs::OfficeReading::xp_reading))]
fn read_primary(texts: &Fields<'_>) -> Result<OfficeRecord, Rule>
    ensures { result ≡ xp_reading texts.now }
{
    let site = site_in(texts.field(3), texts.field(4), texts.field(5)).ok_or(Rule::BadSite)?;
    let pollutant = parameter_of(Tag::Xp, texts.field(6)).ok_or(Rule::ParameterOutOfProfile)?;
    let poc = primary_in(texts.field(8)).ok_or(Rule::BadPoc)?;
    let from = date_in(texts.field(7)).ok_or(Rule::BadDate)?;
    Ok(OfficeRecord::Primary {
        site,
        pollutant,
        from,
        poc,
    })
}

#[tactic(auto, unfolding(crate::specs::OfficeReading::xp_key_reading))]
fn read_primary_key(texts: &Fields<'_>) -> Result<OfficeKey, Rule>
    ensures { result ≡ xp_key_reading texts.now }
{
    let site = site_in(texts.field(3), texts.field(4), texts.field(5)).ok_or(Rule::BadSite)?;
    let pollutant = parameter_of(Tag::Xp, texts.field(6)).ok_or(Rule::ParameterOutOfProfile)?;
    let from = date_in(texts.field(7)).ok_or(Rule::BadDate)?;
    Ok(OfficeKey::Primary {
        site,
        pollutant,
        from,
    })
}

#[tactic(auto, unfolding(crate::specs::OfficeReading::xs_reading))]
fn read_schedule(texts: &Fields<'_>) -> Result<OfficeRecord, Rule>
    ensures { result ≡ xs_reading texts.now }
{
    let site = site_in(texts.field(3), texts.field(4), texts.field(5)).ok_or(Rule::BadSite)?;
    let pollutant = parameter_of(Tag::Xs, texts.field(6)).ok_or(Rule::ParameterOutOfProfile)?;
    let from = date_in(texts.field(7)).ok_or(Rule::BadDate)?;
    let anchor = date_in(texts.field(9)).ok_or(Rule::BadDate)?;
    let interval = interval_in(texts.field(8)).ok_or(Rule::BadInterval)?;
    Ok(OfficeRecord::Schedule {
        site,
        pollutant,
        from,
        interval,
        anchor,
    })
}

#[tactic(auto, unfolding(crate::specs::OfficeReading::xs_key_reading))]
fn read_schedule_key(texts: &Fields<'_>) -> Result<OfficeKey, Rule>
    ensures { result ≡ xs_key_reading texts.now }
{
    let site = site_in(texts.field(3), texts.field(4), texts.field(5)).ok_or(Rule::BadSite)?;
    let pollutant = parameter_of(Tag::Xs, texts.field(6)).ok_or(Rule::ParameterOutOfProfile)?;
    let from = date_in(texts.field(7)).ok_or(Rule::BadDate)?;
    Ok(OfficeKey::Schedule {
        site,
        pollutant,
        from,
    })
}

#[tactic(auto, unfolding(crate::specs::OfficeReading::xo_reading))]
fn read_season(texts: &Fields<'_>) -> Result<OfficeRecord, Rule>
    ensures { result ≡ xo_reading texts.now }
{
    let site = site_in(texts.field(3), texts.field(4), texts.field(5)).ok_or(Rule::BadSite)?;
    let year = year_in(texts.field(6)).ok_or(Rule::BadDate)?;
    let first = date_in(texts.field(7)).ok_or(Rule::BadDate)?;
    let last = date_in(texts.field(8)).ok_or(Rule::BadDate)?;
    if is_season(year, first, last) {
        Ok(OfficeRecord::Season {
            site,
            year,
            first,
            last,
        })
    } else {
        Err(Rule::BadSeason)
    }
}

#[tactic(auto, unfolding(crate::specs::OfficeReading::xo_key_reading))]
fn read_season_key(texts: &Fields<'_>) -> Result<OfficeKey, Rule>
    ensures { result ≡ xo_key_reading texts.now }
{
    let site = site_in(texts.field(3), texts.field(4), texts.field(5)).ok_or(Rule::BadSite)?;
    let year = year_in(texts.field(6)).ok_or(Rule::BadDate)?;
    Ok(OfficeKey::Season { site, year })
}

// The parameter is read, and is always that of PM2.5.
#[tactic(auto, unfolding(crate::specs::OfficeReading::xu_reading))]
fn read_makeup(texts: &Fields<'_>) -> Result<OfficeRecord, Rule>
    ensures { result ≡ xu_reading texts.now }
{
    let site = site_in(texts.field(3), texts.field(4), texts.field(5)).ok_or(Rule::BadSite)?;
    parameter_of(Tag::Xu, texts.field(6)).ok_or(Rule::ParameterOutOfProfile)?;
    let missed = date_in(texts.field(7)).ok_or(Rule::BadDate)?;
    let makeup = date_in(texts.field(8)).ok_or(Rule::BadDate)?;
    if is_makeup(missed, makeup) {
        Ok(OfficeRecord::Makeup {
            site,
            missed,
            makeup,
        })
    } else {
        Err(Rule::BadMakeup)
    }
}

#[tactic(auto, unfolding(crate::specs::OfficeReading::xu_key_reading))]
fn read_makeup_key(texts: &Fields<'_>) -> Result<OfficeKey, Rule>
    ensures { result ≡ xu_key_reading texts.now }
{
    let site = site_in(texts.field(3), texts.field(4), texts.field(5)).ok_or(Rule::BadSite)?;
    parameter_of(Tag::Xu, texts.field(6)).ok_or(Rule::ParameterOutOfProfile)?;
    let missed = date_in(texts.field(7)).ok_or(Rule::BadDate)?;
    Ok(OfficeKey::Makeup { site, missed })
}

#[tactic(auto, unfolding(crate::specs::OfficeReading::xe_reading))]
fn read_event(texts: &Fields<'_>) -> Result<OfficeRecord, Rule>
    ensures { result ≡ xe_reading texts.now }
{
    let site = site_in(texts.field(4), texts.field(5), texts.field(6)).ok_or(Rule::BadSite)?;
    let pollutant = parameter_of(Tag::Xe, texts.field(7)).ok_or(Rule::ParameterOutOfProfile)?;
    let first_day = date_in(texts.field(8)).ok_or(Rule::BadDate)?;
    let last_day = date_in(texts.field(10)).ok_or(Rule::BadDate)?;
    let first_time = time_in(texts.field(9)).ok_or(Rule::BadTime)?;
    let last_time = time_in(texts.field(11)).ok_or(Rule::BadTime)?;
    let first = hour_of(first_day, first_time);
    let last = hour_of(last_day, last_time);
    read_event_of(texts, site, pollutant, first, last)
}

// An event of a site, a pollutant and hours that are read.
#[tactic(auto, unfolding(crate::specs::OfficeReading::event_reading))]
fn read_event_of(
    texts: &Fields<'_>,
    site: SiteId,
    pollutant: Pollutant,
    first: Hour,
    last: Hour,
) -> Result<OfficeRecord, Rule>
    ensures { result ≡ event_reading texts.now site pollutant first last }
{
    if !is_span(first, last) {
        return Err(Rule::BadSpan);
    }
    let number = event_number_in(texts.field(3)).ok_or(Rule::BadCode)?;
    let code = event_code_in(texts.field(12)).ok_or(Rule::BadCode)?;
    Ok(OfficeRecord::Event {
        number,
        site,
        pollutant,
        first,
        last,
        code,
    })
}

#[tactic(auto, unfolding(crate::specs::OfficeReading::xe_key_reading))]
fn read_event_key(texts: &Fields<'_>) -> Result<OfficeKey, Rule>
    ensures { result ≡ xe_key_reading texts.now }
{
    let number = event_number_in(texts.field(3)).ok_or(Rule::BadCode)?;
    Ok(OfficeKey::Event { number })
}

#[tactic(auto, unfolding(crate::specs::OfficeReading::xc_reading))]
fn read_concurrence(texts: &Fields<'_>) -> Result<OfficeRecord, Rule>
    ensures { result ≡ xc_reading texts.now }
{
    let number = event_number_in(texts.field(3)).ok_or(Rule::BadCode)?;
    let agreed = truth_in(texts.field(4)).ok_or(Rule::BadCode)?;
    Ok(OfficeRecord::Concurrence { number, agreed })
}

#[tactic(auto, unfolding(crate::specs::OfficeReading::xa_reading))]
fn read_approved(texts: &Fields<'_>) -> Result<OfficeRecord, Rule>
    ensures { result ≡ xa_reading texts.now }
{
    let site = site_in(texts.field(3), texts.field(4), texts.field(5)).ok_or(Rule::BadSite)?;
    let day = date_in(texts.field(6)).ok_or(Rule::BadDate)?;
    Ok(OfficeRecord::Approved { site, day })
}

#[tactic(auto, unfolding(crate::specs::OfficeReading::xa_key_reading))]
fn read_approved_key(texts: &Fields<'_>) -> Result<OfficeKey, Rule>
    ensures { result ≡ xa_key_reading texts.now }
{
    let site = site_in(texts.field(3), texts.field(4), texts.field(5)).ok_or(Rule::BadSite)?;
    let day = date_in(texts.field(6)).ok_or(Rule::BadDate)?;
    Ok(OfficeKey::Approved { site, day })
}

// Both sites are read before the parameter and the date.
#[tactic(auto, unfolding(crate::specs::OfficeReading::xb_reading))]
fn read_combined(texts: &Fields<'_>) -> Result<OfficeRecord, Rule>
    ensures { result ≡ xb_reading texts.now }
{
    let site = site_in(texts.field(3), texts.field(4), texts.field(5)).ok_or(Rule::BadSite)?;
    let joined = site_in(texts.field(8), texts.field(9), texts.field(10)).ok_or(Rule::BadSite)?;
    let pollutant = parameter_of(Tag::Xb, texts.field(6)).ok_or(Rule::ParameterOutOfProfile)?;
    let from = date_in(texts.field(7)).ok_or(Rule::BadDate)?;
    if is_pair(&site, &joined) {
        Ok(OfficeRecord::Combined {
            site,
            pollutant,
            from,
            joined,
        })
    } else {
        Err(Rule::BadPair)
    }
}

#[tactic(auto, unfolding(crate::specs::OfficeReading::xb_key_reading))]
fn read_combined_key(texts: &Fields<'_>) -> Result<OfficeKey, Rule>
    ensures { result ≡ xb_key_reading texts.now }
{
    let site = site_in(texts.field(3), texts.field(4), texts.field(5)).ok_or(Rule::BadSite)?;
    let pollutant = parameter_of(Tag::Xb, texts.field(6)).ok_or(Rule::ParameterOutOfProfile)?;
    Ok(OfficeKey::Combined { site, pollutant })
}
