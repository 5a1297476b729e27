//! The figures of a file in words.

use std::io::{self, Write};

/// What stands before an instance's name in a line of a figure.
const INSTANCE: &str = ",instance=\"";

/// A figure, as a line of the file has it.
#[derive(Clone, Copy)]
struct Figure<'a> {
    instance: Option<&'a str>,
    /// Labels behind those of the file and of the instance, as they are written.
    labels: &'a str,
    value: &'a str,
}

/// The figure of a line that has one.
fn figure_of(line: &str) -> Option<Figure<'_>> {
    let (_, rest) = line.split_once('{')?;
    let (labels, value) = rest.rsplit_once("} ")?;
    let Some((_, own)) = labels.split_once(INSTANCE) else {
        return Some(Figure {
            instance: None,
            labels: own_labels(labels),
            value,
        });
    };
    let (instance, labels) = own.split_once('"')?;
    Some(Figure {
        instance: Some(instance),
        labels: labels.strip_prefix(',').unwrap_or(""),
        value,
    })
}

/// What stands behind the label of the file, of which a quotation mark has a backslash before it.
fn own_labels(labels: &str) -> &str {
    match labels.split_once("\",") {
        Some((_, own)) => own,
        None => "",
    }
}

/// What a line says of the figures behind it, if it does.
fn help_of(line: &str) -> Option<&str> {
    let (_, help) = line.strip_prefix("# HELP ")?.split_once(' ')?;
    Some(help)
}

/// Writes a figure in words.
fn tell<O: Write>(output: &mut O, figure: Figure<'_>, help: &str) -> io::Result<()> {
    let Figure {
        instance,
        labels,
        value,
    } = figure;
    let help = help.strip_suffix('.').unwrap_or(help);
    match instance {
        Some(name) => write!(output, "{name}: {help}")?,
        None => write!(output, "{help}")?,
    }
    if !labels.is_empty() {
        write!(output, " ({labels})")?;
    }
    writeln!(output, ": {value}")
}

/// Writes the figures of a file's text in words, those of an instance where one is named, and says
/// whether there was any.
pub fn tell_in_words<O: Write>(
    text: &str,
    instance: Option<&str>,
    output: &mut O,
) -> io::Result<bool> {
    let (mut help, mut any) = ("", false);
    for line in text.lines() {
        if let Some(told) = help_of(line) {
            help = told;
        }
        let Some(figure) = figure_of(line) else {
            continue;
        };
        if instance.is_none() || figure.instance == instance {
            tell(output, figure, help)?;
            any = true;
        }
    }
    Ok(any)
}
