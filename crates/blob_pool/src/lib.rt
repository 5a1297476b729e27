//! Texts that stand once, in pages of 65,536 bytes, with exact counts of their holders.
#![tactic(auto)]

mod alone;
mod draft;
mod hashing;
mod hold;
mod index;
mod laws;
mod pages;
mod pool;
mod slot;
mod slots;
mod text;

pub use draft::Draft;
pub use hold::{Hold, Kept, keep};
pub use laws::parts_join_to_the_text;
pub use pool::{Pool, release_kept};
pub use text::{MOST_BYTES, PAGE_BYTES, PagedText};
