//! Entries under numbers, and where they stand.

ghost use Rattle.std.specs.Prelude.{◌≡◌};
ghost use Rattle.std.specs.Option.{option_copied};
ghost use Rattle.std.specs.Map.{lookup};
ghost use Rattle.job_queue.specs.Jobs.{same_number};
ghost use Rattle.job_queue.specs.Codes.{place_of};

use std::collections::VecDeque;

/// The place of the first entry of a number, or the length where there is none.
pub(crate) fn place_of<T>(entries: &[(u64, T)], number: u64) -> usize
    ensures { result ≡ place_of number entries.now }
{
    let mut place = 0;
    let mut left = entries;
    'entries: while let [entry, rest @ ..] = left {
        if number == entry.0 {
            return place;
        }
        place += 1;
        left = rest;
    }
    place
}

/// What stands first under a number in a slice.
pub(crate) fn find_in<T>(entries: &[(u64, T)], number: u64) -> Option<&T>
    ensures { option_copied result ≡ lookup (same_number number) entries.now }
{
    let mut left = entries;
    'entries: while let [entry, rest @ ..] = left {
        if number == entry.0 {
            return Some(&entry.1);
        }
        left = rest;
    }
    None
}

/// What stands first under a number in a queue.
pub(crate) fn find_along<T>(entries: &VecDeque<(u64, T)>, number: u64) -> Option<&T>
    ensures { option_copied result ≡ lookup (same_number number) entries.now.items }
{
    let mut place = 0;
    'entries: while let Some(entry) = entries.get(place) {
        if number == entry.0 {
            return Some(&entry.1);
        }
        place += 1;
    }
    None
}
