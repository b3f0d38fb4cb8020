//! Systematic linear binary codes: words and codewords as numbers, syndromes, and the laws of distances.
#![tactic(auto)]

mod code;
mod laws;
mod word;

pub use code::{Code, CodeFault};
pub use laws::{
    codes_have_one_distance, codes_tell_errors, short_words_keep_the_distance,
    syndromes_tell_errors, words_have_distances,
};
pub use word::{Word, weight};
