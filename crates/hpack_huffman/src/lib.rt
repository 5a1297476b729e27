//! The Huffman code of HPACK: RFC 7541, section 5.2 and appendix B.
#![tactic(auto)]

mod code;
mod decode;
mod laws;
mod reader;

pub use decode::decode_into;
pub use laws::{no_code_begins_another, reading_is_the_grammar};

/// Why no text was added.
#[derive(Clone, Copy, Debug, PartialEq, Eq)]
pub enum HuffmanError {
    /// The code of EOS comes before any other fault (RFC 7541, section 5.2).
    Eos,
    /// What follows the last symbol is more than seven bits, or not all ones.
    Padding,
    /// The vector cannot grow.
    NoMemory,
}
