//! How numbers are written: in groups of seven bits, and in decimal digits.
#![tactic(auto)]

mod base128;
mod laws;
mod number;

pub use base128::push_groups;
pub use laws::{
    groups_are_few, groups_have_one_number, small_number_is_one_byte, writing_is_in_groups,
};
pub use number::{are_digits, decimal};
