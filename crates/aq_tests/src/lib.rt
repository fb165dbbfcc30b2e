//! Tests in code of what no command shows: what is kept of numbers, an area's years and a journal's bytes.
//!
//! # What it has
//!
//! - A module for each crate whose public calls it tries. Its tests give small offices and a disk in memory, and
//!   hold the answers against values by hand.
//!
//! # What it promises
//!
//! - Nothing, and no crate stands on it. So its tests are proved once, without the crates that they try.
//!
//! # An example
//!
//! `rt test` in its folder proves and runs them, and `rt try --test` runs them unproved.
#![tactic(auto)]

#[cfg(test)]
mod agg;
#[cfg(test)]
mod area;
#[cfg(test)]
mod dirty;
#[cfg(test)]
mod journal;
#[cfg(test)]
mod ozone_cells;
#[cfg(test)]
mod pm10_cells;
#[cfg(test)]
mod pm25_cells;
