//! Laws of areas and critical values.

pub mod area_value;
pub mod critical_value;
