//! What is kept of bags of items, so that an answer about a bag takes no walk over its items: sums with
//! numbers, ranked values, greatest values, sums over strata, and tallies of them under keys. A bag is a
//! list of items of which the order says nothing. The unit of the values is that of the caller:
//! thousandths of a ppm for ozone, tenths of a µg/m3 for particles.
//!
//! # What it has
//!
//! - [`Aggregate`]: `empty` starts with the empty bag; `add` and `take` change the bag by one item, and
//!   `answer` is a function of the bag alone.
//! - `SumCount`: the sum and the number of the values.
//! - `RankedBag`: the eight greatest values, downwards; `MaxOf`: the greatest one.
//! - `StratumSum`: how many strata there are, and the part of their samples that exceed, in sixtieths.
//! - [`Tally`]: one aggregate under each key; `change` exchanges an item in one step, `answer` asks.
//!
//! # What it promises
//!
//! - A change of one item leaves what is kept of the changed bag, and every other bag of a tally as it
//!   was.
//! - Only `add`, and [`Tally::change`] with it, may want memory; then every bag is as it was.
//! - An answer is a function of the bag alone, in whatever order it is
//!   (`bags_of_a_tally_have_no_order`).
//! - The eight greatest are the book's, and so is the fourth of them
//!   (`top_eight_are_the_eight_greatest`, `fourth_of_the_top_eight`); strata give the book's sixtieths
//!   (`strata_give_what_their_samples_give`).
//! - Worked bags are computed (`answers_of_bags`). The cells of aq_ozone_cells stand on it.
//!
//! # An example
//!
//! ```rust
//! let mut maxima = RankedBag::empty(alloc);
//! maxima.add(71)?;
//! maxima.add(75)?;
//! maxima.take(71);
//! assert_eq!(rt; maxima.answer()[0], Some(75));
//! assert_eq!(rt; maxima.answer()[1], None);
//! ```
#![tactic(auto)]

mod aggregate;
mod laws;
mod max_of;
mod ranked_bag;
mod stratum_sum;
mod sum_count;
mod tally;

pub use aggregate::Aggregate;
pub use laws::{
    answers_of_bags, bags_of_a_tally_have_no_order, fourth_of_the_top_eight,
    strata_give_what_their_samples_give, top_eight_are_the_eight_greatest,
};
pub use max_of::MaxOf;
pub use ranked_bag::RankedBag;
pub use stratum_sum::StratumSum;
pub use sum_count::SumCount;
pub use tally::Tally;
