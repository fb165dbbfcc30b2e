//! A quotient with one rounding, in 32 bits.
ghost use Rattle.std.specs.Prelude.{◌≡◌, ◌≤◌, [], ◌∷◌, ◌*◌, ◌-◌, ◌^◌, pos, neg_ℤ, ◌+ℤ◌, ◌≤ℤ◌, ◌<ℤ◌, unsigned_abs};
ghost use Rattle.aq_base.specs.Decimal.{half_up};
ghost use Rattle.aq_rules.specs.Lists.{total};

use aq_num::round_half_up;

/// `num / den` to the nearest whole number, halves upwards.
pub(crate) fn rounded(num: i128, den: i128) -> i32
    requires positive { pos 0 <ℤ den }
    requires den_small { den ≤ℤ pos (2 ^ 88) }
    requires low { neg_ℤ (pos (2 ^ 31 * unsigned_abs den)) ≤ℤ num }
    requires high { num ≤ℤ pos ((2 ^ 31 - 1) * unsigned_abs den) }
    ensures { result ≡ half_up num den }
{
    round_half_up(num, den) as i32
}

/// The sum of three numbers over `den`, rounded so.
pub(crate) fn rounded_three(a: i32, b: i32, c: i32, den: u8) -> i32
    requires { 3 ≤ den }
    ensures { result ≡ half_up (total (a ∷ b ∷ c ∷ [])) (pos den) }
{
    rounded_over(sum_of_three(a, b, c), den)
}

/// The sum of four numbers over `den`, rounded so.
pub(crate) fn rounded_four(a: i32, b: i32, c: i32, d: i32, den: u8) -> i32
    requires { 4 ≤ den }
    ensures { result ≡ half_up (total (a ∷ b ∷ c ∷ d ∷ [])) (pos den) }
{
    rounded_over(sum_of_four(a, b, c, d), den)
}

pub(crate) fn sum_of_three(a: i32, b: i32, c: i32) -> i64
    ensures { result ≡ a +ℤ b +ℤ c }
{
    i64::from(a) + i64::from(b) + i64::from(c)
}

fn sum_of_four(a: i32, b: i32, c: i32, d: i32) -> i64
    ensures { result ≡ a +ℤ b +ℤ c +ℤ d }
{
    sum_of_three(a, b, c) + i64::from(d)
}

fn rounded_over(sum: i64, den: u8) -> i32
    requires some { 1 ≤ den }
    requires low { neg_ℤ (pos (2 ^ 31 * den)) ≤ℤ sum }
    requires high { sum ≤ℤ pos ((2 ^ 31 - 1) * den) }
    ensures { result ≡ half_up sum (pos den) }
{
    rounded(i128::from(sum), i128::from(den))
}
