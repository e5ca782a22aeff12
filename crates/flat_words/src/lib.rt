//! The words that call the service.
//!
//! `read` (service_word) answers what specs/Forms says of the words, which the command of
//! specs/Command reads.
#![tactic(auto)]

mod service_word;

pub use service_word::{ServiceWord, read};
