//! Rails: ranges of gates that tell whether some word is no codeword.
#![tactic(auto)]

mod rails;

pub use rails::rail;
