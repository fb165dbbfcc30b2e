//! Hours as text.
ghost use Rattle.std.specs.Prelude.{◌≡◌};
ghost use Rattle.aq_rules.specs.Listed.Events as events;

use aq_base::{Day, Hour};
use aq_cal::{day_text, last_digits};

/// An hour as `YYYY-MM-DDTHH:00`.
#[tactic(auto, unfolding(aq_base::specs::Text::day_text, aq_base::specs::Text::hour_text, aq_base::specs::Decimal::last_digits))]
pub(crate) fn moment_text(hour: Hour) -> [u8; 16]
    ensures { result ≡ events.moment_text hour }
{
    let number = hour.number();
    let day = day_text(Day::new((number / 24) as u16));
    let [
        thousands,
        hundreds,
        tens,
        ones,
        first_dash,
        month_tens,
        month_ones,
        second_dash,
        day_tens,
        day_ones,
    ] = day;
    let [hour_tens, hour_ones] = last_digits::<2>((number % 24) as u16);
    [
        thousands,
        hundreds,
        tens,
        ones,
        first_dash,
        month_tens,
        month_ones,
        second_dash,
        day_tens,
        day_ones,
        b'T',
        hour_tens,
        hour_ones,
        b':',
        b'0',
        b'0',
    ]
}
