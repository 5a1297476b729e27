//! What an instance's quota and limit drove out: for an operator alone.

/// How long a window is in which the youngest of what was dropped is looked for, in milliseconds.
const WINDOW: u64 = 60_000;

/// What was dropped to make room.
#[derive(Clone, Copy, Debug, PartialEq, Eq)]
pub struct Dropped {
    /// How many texts; 2^64 - 1 where it were more.
    pub count: u64,
    /// Of these, how many since there were too many, and not too large a sum of bytes.
    pub for_number: u64,
    /// How many milliseconds lay between the last use of a text and its end, of the one with the
    /// fewest that was dropped in the minute of the last one or in the minute before; 0 where none
    /// was dropped.
    pub youngest_age: u64,
}

/// What was dropped, and the shortest ages by the minute.
#[derive(Clone, Copy, Debug)]
pub(crate) struct Drops {
    count: u64,
    for_number: u64,
    /// The minute of the last one.
    minute: u64,
    /// The shortest age of those of that minute.
    youngest: u64,
    /// The shortest age of those of the minute before.
    youngest_before: u64,
}

impl Drops {
    pub(crate) fn none() -> Drops {
        Drops {
            count: 0,
            for_number: 0,
            minute: 0,
            youngest: u64::MAX,
            youngest_before: u64::MAX,
        }
    }

    /// With one that is dropped at this moment, so many milliseconds after its last use, since
    /// there are too many, or for the sum of bytes.
    pub(crate) fn with(self, moment: u64, age: u64, is_for_number: bool) -> Drops {
        let minute = moment / WINDOW;
        let (youngest, youngest_before) = if minute == self.minute {
            (self.youngest.min(age), self.youngest_before)
        } else if minute.wrapping_sub(self.minute) == 1 {
            (age, self.youngest)
        } else {
            (age, u64::MAX)
        };
        let for_number = if is_for_number {
            self.for_number.saturating_add(1)
        } else {
            self.for_number
        };
        Drops {
            count: self.count.saturating_add(1),
            for_number,
            minute,
            youngest,
            youngest_before,
        }
    }

    pub(crate) fn shown(self) -> Dropped {
        let youngest_age = if self.count == 0 {
            0
        } else {
            self.youngest.min(self.youngest_before)
        };
        Dropped {
            count: self.count,
            for_number: self.for_number,
            youngest_age,
        }
    }
}
