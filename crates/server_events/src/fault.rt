//! Why a list of configurations is refused.

/// Why a list of configurations is refused.
///
/// A fault of one instance has its number, counted from 0.
#[derive(Clone, Copy, Debug)]
pub enum ConfigFault {
    /// The name may not be an instance's.
    BadName(usize),
    /// The quota is above the greatest.
    BadQuota(usize),
    /// The slots are above the most.
    BadSlots(usize),
    /// An earlier instance has the name.
    DuplicateName(usize),
    /// There are more instances than a server has.
    TooMany,
    /// The instance builds on one that is not there, on itself, or on one that builds on another.
    BadParent(usize),
}
