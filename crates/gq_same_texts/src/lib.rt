//! Texts of two dictionaries: which properties of two nodes a condition asks to be one text, and what a
//! text's code in one dictionary is in another one. The crate stands on the conditions of `gq_filter`
//! and the dictionaries of `gq_dict`.
#![tactic(auto)]

mod asked;
mod same_texts;

pub use asked::{EqualTexts, TextColumn, equal_texts};
pub use same_texts::SameTexts;
