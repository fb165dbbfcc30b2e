//! A sum of quotients as one fraction.
ghost use Rattle.std.specs.Prelude.{◌≡◌, ℕ, ◌≤◌, ◌<◌, ◌*◌, ◌^◌, pos, ◌+ℤ◌, ◌*ℤ◌, ◌<ℤ◌, ◌≤ℤ◌, unsigned_abs, All};
ghost use Rattle.std.specs.Int.{◌∣◌};
ghost use Rattle.aq_num.specs.Fractions.{sum_of_fractions, sum_in_units};

/// A fraction `num / den`. It may have common factors.
#[derive(Clone, Copy, Debug)]
pub struct Frac {
    pub num: i128,
    pub den: i128,
}

/// The sum of twelve quotients `sum / count`, exact. Its denominator is the product of the counts.
pub fn sum_of_ratios(parts: &[(i32, u8); 12]) -> Frac
    requires counts { All (λ part. (1 ≤ part.1) × (part.1 ≤ 103)) parts.now }
    requires sums { All (λ part. unsigned_abs part.0 ≤ 10299897) parts.now }
    ensures num { result.num ≡ (sum_of_fractions parts.now).0 }
    ensures den { result.den ≡ pos (sum_of_fractions parts.now).1 }

    // In units of 1 / d, for each common multiple d of the counts, the sum is whole.
    ensures units { (d : ℕ) → All (λ part. part.1 ∣ d) parts.now
        → (result.num *ℤ pos d) ≡ (sum_in_units d parts.now *ℤ result.den) }

    ensures positive { pos 0 <ℤ result.den }
    ensures den_small { result.den <ℤ pos (2 ^ 81) }
    ensures num_small { unsigned_abs result.num < 2 ^ 108 }
    ensures within { unsigned_abs result.num ≤ 12 * 10299897 * unsigned_abs result.den }
{
    let mut sum = Frac { num: 0, den: 1 };
    for &(total, count) in parts {
        sum = with_ratio(sum, total, count);
    }
    sum
}

/// A sum with one more quotient.
fn with_ratio(sum: Frac, total: i32, count: u8) -> Frac
    requires num_small { unsigned_abs sum.num ≤ 2 ^ 108 }
    requires den_small { unsigned_abs sum.den ≤ 2 ^ 81 }
    ensures num { result.num ≡ ((sum.num *ℤ pos count) +ℤ (total *ℤ sum.den)) }
    ensures den { result.den ≡ (sum.den *ℤ pos count) }
{
    let count = i128::from(count);
    Frac {
        num: sum.num * count + i128::from(total) * sum.den,
        den: sum.den * count,
    }
}
