//! What is told of the words of a command line.

use std::io::{self, Write};

/// How the tip begins that says how a word with a `-` before it could be taken as no option.
const WORD_TIP: &str = "\n\n  tip: to pass '-";

/// A text of the command line's faults in two parts, without its tip on a word that begins with
/// `-`, if it has that: whoever wrote one meant an option, or a number.
fn without_tip(text: &str) -> (&str, &str) {
    let Some((head, behind)) = text.split_once(WORD_TIP) else {
        return (text, "");
    };
    match behind.split_once('\n') {
        Some((_, rest)) => (head, rest),
        None => (text, ""),
    }
}

/// Tells a fault of the command line, whose text this is.
pub fn tell_usage<E: Write>(text: &str, errors: &mut E) -> io::Result<()> {
    match without_tip(text) {
        (text, "") => write!(errors, "{text}"),
        (head, rest) => write!(errors, "{head}\n{rest}"),
    }
}
