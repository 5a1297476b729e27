//! Which part of a word is wrong, for whoever wrote it.

ghost use Rattle.std.specs.Prelude.{◌≡◌, ◌++◌, IfSome, codes, option_map};
ghost use Rattle.operator_lines.specs.Mistakes.{IsMistakeOf, part_among};

use crate::instance_words::{MOST_QUOTA, Parts, WordFault, cut, parts_of};
use command_line::size;
use std::fmt;

/// A part of a word for an instance.
#[derive(Clone, Copy, Debug, PartialEq, Eq)]
pub(crate) enum Part {
    Name,
    Port,
    Quota,
    Slots,
    Parent,
}

/// What is wrong in a word.
#[derive(Clone, Copy, Debug, PartialEq, Eq)]
pub(crate) enum Mistake<'a> {
    /// It ends before this part.
    Lacks(Part),
    /// This stands behind its last part.
    Behind(&'a str),
    /// This is written for a part.
    Is(Part, &'a str),
    /// A space stands in it, and this behind that.
    Spaced(&'a str),
}

/// Why what a word names as its parent is none.
#[derive(Clone, Copy, Debug, PartialEq, Eq)]
pub(crate) enum ParentMistake<'a> {
    /// It is the instance itself.
    Itself,
    /// No word is for an instance of this name.
    Unknown,
    /// It has this parent itself.
    HasParent(&'a str),
}

/// The part that a fault is about; none where it is about how many there are.
fn part_of(fault: WordFault) -> Option<Part> {
    match fault {
        WordFault::Parts => None,
        WordFault::Port | WordFault::PortAgain => Some(Part::Port),
        WordFault::Quota => Some(Part::Quota),
        WordFault::Slots => Some(Part::Slots),
        WordFault::Name | WordFault::NameAgain => Some(Part::Name),
        WordFault::Parent => Some(Part::Parent),
    }
}

/// What is written for a part; nothing for a parent that is not there.
fn text_of<'a>(parts: &Parts<'a>, part: Part) -> Option<&'a str>
    ensures { option_map (λ text. text.now) result ≡ part_among part parts.now.name.now
        parts.now.port.now parts.now.quota.now parts.now.slots.now
        (option_map (λ parent. parent.now) parts.now.parent) }
{
    match part {
        Part::Name => Some(parts.name),
        Part::Port => Some(parts.port),
        Part::Quota => Some(parts.quota),
        Part::Slots => Some(parts.slots),
        Part::Parent => parts.parent,
    }
}

/// What a word has too few of, or too many.
fn miscounted(word: &str) -> Option<Mistake<'_>>
    ensures { IfSome result (IsMistakeOf word.now) }
{
    let Some((_, rest)) = cut(word) else {
        return Some(Mistake::Lacks(Part::Port));
    };
    let Some((_, rest)) = cut(rest) else {
        return Some(Mistake::Lacks(Part::Quota));
    };
    let Some((_, rest)) = cut(rest) else {
        return Some(Mistake::Lacks(Part::Slots));
    };
    let (_, parent) = cut(rest)?;
    let (_, behind) = cut(parent)?;
    Some(Mistake::Behind(behind))
}

/// What stands before the first space of a text, and behind it.
fn cut_at_space(text: &str) -> Option<(&str, &str)>
    ensures { IfSome result (λ parts. text.now
        ≡ parts.0.now ++ (codes " " ++ parts.1.now)) }
{
    text.split_once(' ')
}

/// Why what a word names as its parent is none, among the words for all instances.
pub(crate) fn parent_mistake_of<'a>(words: &[&'a str], word: &str) -> Option<ParentMistake<'a>> {
    let parts = parts_of(word)?;
    let parent = parts.parent?;
    if parent.is_empty() {
        return None;
    }
    if parent == parts.name {
        return Some(ParentMistake::Itself);
    }
    for other in words.iter() {
        if let Some(found) = parts_of(*other) {
            if found.name == parent {
                return Some(ParentMistake::HasParent(found.parent?));
            }
        }
    }
    Some(ParentMistake::Unknown)
}

/// What is wrong in a word that has this fault.
pub(crate) fn mistake_of(word: &str, fault: WordFault) -> Option<Mistake<'_>>
    ensures { IfSome result (IsMistakeOf word.now) }
{
    if let Some((_, behind)) = cut_at_space(word) {
        return Some(Mistake::Spaced(behind));
    }
    match (parts_of(word), part_of(fault)) {
        (Some(parts), Some(part)) => Some(Mistake::Is(part, text_of(&parts, part)?)),
        _ => miscounted(word),
    }
}

impl fmt::Display for Part {
    fn fmt<W: fmt::Write>(&self, f: &mut fmt::Formatter<W>) -> fmt::Result {
        f.write_str(match self {
            Part::Name => "NAME",
            Part::Port => "PORT",
            Part::Quota => "QUOTA",
            Part::Slots => "SLOTS",
            Part::Parent => "PARENT",
        })
    }
}

impl fmt::Display for Mistake<'_> {
    fn fmt<W: fmt::Write>(&self, f: &mut fmt::Formatter<W>) -> fmt::Result {
        match self {
            Mistake::Lacks(part) => write!(f, "it has no {part}"),
            Mistake::Behind(text) => write!(f, "behind PARENT stands {text}"),
            Mistake::Is(part, "") => write!(f, "{part} is empty"),
            Mistake::Is(Part::Quota, text) => match size(text.as_bytes()) {
                Some(bytes) if bytes <= MOST_QUOTA => {
                    write!(f, "QUOTA is {text}: in digits that is {bytes}")
                }
                _ => write!(f, "QUOTA is {text}"),
            },
            Mistake::Is(part, text) => write!(f, "{part} is {text}"),
            Mistake::Spaced("") => f.write_str("a space stands at its end"),
            Mistake::Spaced(text) => write!(
                f,
                "a space stands in it before {text}: each instance is a word of its own"
            ),
        }
    }
}

impl fmt::Display for ParentMistake<'_> {
    fn fmt<W: fmt::Write>(&self, f: &mut fmt::Formatter<W>) -> fmt::Result {
        match self {
            ParentMistake::Itself => f.write_str("that is the instance itself"),
            ParentMistake::Unknown => f.write_str("no instance has this name"),
            ParentMistake::HasParent(parent) => { write!(f, "that has a parent itself, {parent}") }
        }
    }
}
