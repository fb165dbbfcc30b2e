//! Exact decimals, division and rounding. Nothing here is a floating-point number: a value is a whole
//! number of thousandths, tenths or what else its caller says, and a mean is a fraction until its one
//! rounding.
//!
//! # What it has
//!
//! - `read_decimal(text, places)`: a decimal text as a whole number of its last place, cut toward zero;
//!   else a `NumberFault`. `places` is at most 6.
//! - `trunc_div(a, b)`: the quotient, cut toward zero.
//! - `round_half_up(num, den)`: the quotient to the nearest whole number, halves upwards.
//! - `sum_of_ratios(parts)`: the sum of twelve quotients as one exact `Frac`.
//! - `write_fixed(out, value, places)`: appends a whole number of the last place as a decimal. Only this
//!   call takes memory.
//!
//! # What it promises
//!
//! - A decimal text is read exactly if it has the form, is cut toward zero, and is refused as too large
//!   exactly above 999,999,999 of its last place (`read_decimal`); what a refusal shows is in
//!   `specs/Faults.antt`.
//! - Quotients are truncated and rounded as `truncated` and `half_up` define (`trunc_div`,
//!   `round_half_up`).
//! - A sum of twelve quotients is one exact fraction, with a denominator below 2^81 (`sum_of_ratios`).
//! - A fixed decimal prints as `fixed` defines; after want of memory nothing is written (`write_fixed`).
//!
//! # An example
//!
//! ```rust
//! assert_eq!(rt; read_decimal(b"0.0679", 3), Ok(67));   // ppm, in thousandths
//! assert_eq!(rt; read_decimal(b"6,7", 1), Err(NumberFault::Spelling));
//! assert_eq!(rt; trunc_div(-7, 2), -3);
//! assert_eq!(rt; round_half_up(25, 10), 3);
//! let mut out = Vec::new(alloc);
//! write_fixed(&mut out, 67, 3)?;
//! assert_eq!(rt; out.as_slice(), b"0.067".as_slice());
//! ```
#![tactic(auto)]

mod decimal;
mod division;
mod ratios;
mod text;

pub use decimal::{NumberFault, read_decimal};
pub use division::{round_half_up, trunc_div};
pub use ratios::{Frac, sum_of_ratios};
pub use text::write_fixed;
