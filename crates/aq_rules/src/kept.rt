//! Laws of what is kept.

pub mod migration;
pub mod reach;
pub mod row_changes;
pub mod rows;
pub mod summaries;
pub mod tables;
