//! Numbers in the lines of cases.

use numerals::decimal;
use tool_programs::{Fault, Output};

/// The number that a word is; where it is none, that is remembered.
pub fn number(word: &[u8], output: &mut Output) -> u64 {
    match decimal(word) {
        Some(number) => number,
        None => {
            output.fail(Fault::InputOrOutput);
            0
        }
    }
}
