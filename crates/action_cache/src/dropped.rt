//! Which results the limits drove out: for an operator alone.

/// How many results were dropped for newer ones.
#[derive(Clone, Copy, Debug, PartialEq, Eq)]
pub struct DroppedResults {
    /// As there were too many; 2^64 - 1 where it were more.
    pub for_number: u64,
    /// As they had too many bytes together; 2^64 - 1 where it were more.
    pub for_bytes: u64,
}

impl DroppedResults {
    pub(crate) fn none() -> DroppedResults {
        DroppedResults {
            for_number: 0,
            for_bytes: 0,
        }
    }

    /// With one more.
    pub(crate) fn with(self, is_for_number: bool) -> DroppedResults {
        if is_for_number {
            DroppedResults {
                for_number: self.for_number.saturating_add(1),
                for_bytes: self.for_bytes,
            }
        } else {
            DroppedResults {
                for_number: self.for_number,
                for_bytes: self.for_bytes.saturating_add(1),
            }
        }
    }
}
