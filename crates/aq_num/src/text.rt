//! Writing a decimal text.
ghost use Rattle.std.specs.Prelude.{◌≡◌, ℕ, ◌≤◌, ◌<◌, ◌^◌, ◌/◌, ◌++◌, OnOk, OnErr, take, vec_len, decimal};
ghost use Rattle.aq_base.specs.Decimal.{fixed, last_digits};

use aq_base::Memory;

/// Appends the text of `value / 10^places`: a minus if the value is negative, the whole part
/// without leading zeros, and after a point exactly `places` digits. After `Memory` `out` is as
/// before.
pub fn write_fixed(out: &mut Vec<u8>, value: i64, places: u8) -> Result<(), Memory>
    requires { places ≤ 6 }
    ensures ok { OnOk result (out.new.items ≡ out.old.items ++ fixed value places) }
    ensures err { OnErr result (out.new.items ≡ out.old.items) }
{
    let before = out.len();
    let written = write_parts(out, value, places);
    if written.is_err() {
        out.truncate(before);
    }
    written
}

fn write_parts(out: &mut Vec<u8>, value: i64, places: u8) -> Result<(), Memory>
    requires { places ≤ 6 }
    ensures ok { OnOk result (out.new.items ≡ out.old.items ++ fixed value places) }
    ensures front { take (vec_len out.old) out.new.items ≡ out.old.items }
{
    if value < 0 {
        out.push(b'-')?;
    }
    let magnitude = value.unsigned_abs();
    write_decimal(out, magnitude / 10u64.pow(u32::from(places)))?;
    if places > 0 {
        out.push(b'.')?;
        write_last_digits(out, magnitude, places)?;
    }
    Ok(())
}

/// Appends a number without leading zeros.
fn write_decimal(out: &mut Vec<u8>, number: u64) -> Result<(), Memory>
    ensures ok { OnOk result (out.new.items ≡ out.old.items ++ decimal number) }
    ensures front { take (vec_len out.old) out.new.items ≡ out.old.items }
{
    if number >= 10 {
        write_decimal(out, number / 10)?;
    }
    out.push(b'0' + (number % 10) as u8)?;
    Ok(())
}

/// Appends the last `count` digits of a number, leading zeros among them.
fn write_last_digits(out: &mut Vec<u8>, number: u64, count: u8) -> Result<(), Memory>
    ensures ok { OnOk result (out.new.items ≡ out.old.items ++ last_digits count number) }
    ensures front { take (vec_len out.old) out.new.items ≡ out.old.items }
{
    if count > 0 {
        write_last_digits(out, number / 10, count - 1)?;
        out.push(b'0' + (number % 10) as u8)?;
    }
    Ok(())
}
