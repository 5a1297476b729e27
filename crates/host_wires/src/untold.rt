//! Connections of which the system does not tell what comes.

use std::alloc::{AllocError, Global};
use std::cell::RefCell;

/// The tokens of connections that could not be watched, as where the programs of the server's user
/// have used up what epoll may watch for it (`fs.epoll.max_user_watches`). They are told of as if
/// something had come, as many at each look as there is room for, by turns.
#[derive(Drop)]
pub(crate) struct Untold {
    tokens: RefCell<Vec<usize>>,
}

impl Untold {
    /// All are watched.
    pub(crate) fn new(alloc: Global) -> Untold {
        Untold {
            tokens: RefCell::new(Vec::new(alloc)),
        }
    }

    /// One cannot be watched.
    pub(crate) fn add(&self, token: usize) -> Result<(), AllocError> {
        match self.tokens.try_borrow_mut() {
            Ok(mut tokens) if !tokens.contains(&token) => Ok(tokens.push(token)?),
            _ => Ok(()),
        }
    }

    /// It is watched now, or closed.
    pub(crate) fn remove(&self, token: usize) {
        if let Ok(mut tokens) = self.tokens.try_borrow_mut() {
            tokens.retain(|other| *other != token);
        }
    }

    /// So many were told of: the others come first from now on.
    pub(crate) fn pass(&self, told: usize) {
        if let Ok(mut tokens) = self.tokens.try_borrow_mut() {
            let first = told.checked_rem(tokens.len()).unwrap_or(0);
            tokens.rotate_left(first);
        }
    }

    /// One of those that cannot be watched.
    pub(crate) fn get(&self, nth: usize) -> Option<usize> {
        self.tokens.try_borrow().ok()?.get(nth).copied()
    }
}
