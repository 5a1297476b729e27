//! Admission of texts under an instance's quota.
#![tactic(auto)]

mod admission;
mod laws;

pub use admission::{AdmitError, admit, admit_draft};
pub use laws::{
    a_text_seen_is_named, kept_front_is_longest, no_texts_keep_limits, uses_keep_limits,
};
