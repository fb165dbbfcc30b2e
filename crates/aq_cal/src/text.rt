//! Numbers and days as text.
ghost use Rattle.std.specs.Prelude.{◌≡◌, ◌+◌, ◌<◌, ◌++◌, OnOk, OnErr, vec_len, vec_capacity};
ghost use Rattle.aq_base.specs.Decimal.{last_digits};
ghost use Rattle.aq_base.specs.Text.{day_text};

use crate::date::civil_of;
use aq_base::{Day, Memory};

/// The last `N` decimal digits of a number, leading zeros among them.
pub fn last_digits<const N: usize>(number: u16) -> [u8; N]
    ensures { result ≡ last_digits N number }
{
    let mut digits = [b'0'; N];
    let mut rest = number;
    for place in (0..N).rev() {
        digits[place] = b'0' + (rest % 10) as u8;
        rest /= 10;
    }
    digits
}

/// A day as `YYYY-MM-DD`.
#[tactic(auto, unfolding(aq_base::specs::Text::day_text))]
pub fn day_text(day: Day) -> [u8; 10]
    ensures { result ≡ day_text day }
{
    let date = civil_of(day);
    let [thousands, hundreds, tens, ones] = last_digits::<4>(date.year);
    let [month_tens, month_ones] = last_digits::<2>(u16::from(date.month));
    let [day_tens, day_ones] = last_digits::<2>(u16::from(date.day));
    [
        thousands, hundreds, tens, ones, b'-', month_tens, month_ones, b'-', day_tens, day_ones,
    ]
}

/// Appends a day as `YYYY-MM-DD`. It is refused only if `out` has no room for that and memory
/// cannot be had, and `out` is then as before.
pub fn write_day(out: &mut Vec<u8>, day: Day) -> Result<(), Memory>
    ensures written { OnOk result (out.new.items ≡ out.old.items ++ day_text day) }
    ensures unchanged { OnErr result (out.new.items ≡ out.old.items) }
    ensures room { OnErr result (vec_capacity out.old < vec_len out.old + 10) }
{
    out.extend_from_slice(&day_text(day))?;
    Ok(())
}
