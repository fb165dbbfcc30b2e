//! What stands, listed, worked out on small offices.
pub mod days;
pub mod lists;
pub mod loads_back;
pub mod texts;
