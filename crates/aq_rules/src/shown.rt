//! Laws of what is shown.

pub mod answer;
pub mod area_sheets;
pub mod export;
pub mod generator;
pub mod json;
pub mod particle_sheets;
pub mod sheets;
pub mod well_formed;
