//! The table of questions, its readings and the answers.
pub mod answers;
pub mod asking;
