//! What an event works on.

use crate::open_connection::OpenConnection;
use blob_pool::Pool;
use instance_core::Instance;
use instance_view::View;
use std::alloc::Global;

/// An instance with its open connections, and what it is lent while an event is carried out: the
/// pool that has its texts, and the texts of its parent.
#[derive(Drop)]
pub(crate) struct Lent<'a> {
    pub(crate) alloc: Global,
    pub(crate) parent: &'a View,
    pub(crate) pool: &'a mut Pool,
    pub(crate) instance: &'a mut Instance,
    /// In order of opening.
    pub(crate) connections: &'a mut Vec<OpenConnection>,
}
