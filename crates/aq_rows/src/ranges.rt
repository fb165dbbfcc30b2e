//! Numbers of rows in a range.
ghost use Rattle.std.specs.Prelude.{◌≡◌, ◌≤◌, IfSome};
ghost use Rattle.aq_rows.specs.Ranges.{between};

/// A number of a row, if it is one from a first to a last one.
pub(crate) fn between(first: u32, last: u32, number: i64) -> Option<u32>
    ensures value { result ≡ between first last number }
    ensures range { IfSome result (λ n. (first ≤ n) × (n ≤ last)) }
{
    if i64::from(first) <= number && number <= i64::from(last) {
        Some(number as u32)
    } else {
        None
    }
}
