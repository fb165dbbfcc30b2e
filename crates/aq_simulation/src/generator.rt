//! The generated loads of a simulation (own): the office of some sites and years, and the samples of
//! each site and year, drawn from a start number.
//!
//! # What it has
//!
//! - `load_count(sites, years)`: how many loads there are, the office's and one for each site and year.
//! - `generate(alloc, start, sites, years, load)`: the body of a load by its number from 1, or `None`
//!   beyond the last. There are 1 to 32 sites and 3 to 10 years.
//! - `FIRST_GENERATED_YEAR`: the first year, 2021.
//!
//! # What it promises
//!
//! - The generated loads are the book's, and each is within the limits of a load, in bytes and in lines
//!   (`generate`, `load_count`).
//!
//! # An example
//!
//! ```rust
//! let count = load_count(2, 3);
//! assert_eq!(rt; count, 7);
//! let office = generate(alloc, 1, 2, 3, 1)?;
//! assert!(rt; office.is_some());
//! assert!(rt; generate(alloc, 1, 2, 3, count + 1)?.is_none());
//! ```

mod draws;
mod loads;
mod office;
mod samples;

pub use loads::{generate, load_count};
pub use office::FIRST_GENERATED_YEAR;
