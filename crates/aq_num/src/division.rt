//! Quotients with one rounding.
ghost use Rattle.std.specs.Prelude.{◌≡◌, ℕ, ◌≤◌, ◌^◌, pos, ◌<ℤ◌, ◌≤ℤ◌, unsigned_abs};
ghost use Rattle.aq_base.specs.Decimal.{truncated, half_up};

/// `a / b` with the fraction dropped toward zero.
pub fn trunc_div(a: i64, b: i64) -> i64
    requires { pos 0 <ℤ b }
    ensures { result ≡ truncated a b }
{
    a / b
}

/// `num / den` rounded to the nearest whole number, halves upwards: the greatest whole number not
/// above `num / den + 1/2`.
pub fn round_half_up(num: i128, den: i128) -> i128
    requires positive { pos 0 <ℤ den }
    requires den_small { den ≤ℤ pos (2 ^ 120) }
    requires num_small { unsigned_abs num ≤ 2 ^ 120 }
    ensures { result ≡ half_up num den }
{
    (2 * num + den).div_euclid(2 * den)
}
