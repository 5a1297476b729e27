//! The texts that ranges hold.

ghost use Rattle.std.specs.Prelude.{◌≡◌, IfOk, map};
ghost use Rattle.served_instance.specs.Ranges.{sources_at};
ghost use Rattle.served_instance.specs.Shown.{connection_shown};

use crate::open_connection::OpenConnection;
use std::alloc::{AllocError, Global};

/// The sources of the ranges of these connections, each as often as it is held.
pub(crate) fn range_sources(
    alloc: Global,
    connections: &[OpenConnection],
) -> Result<Vec<usize>, AllocError>
    ensures { IfOk result (λ sources. sources.items
        ≡ sources_at (map connection_shown connections.now)) }
{
    let mut sources = Vec::new(alloc);
    for kept in connections.iter() {
        let held = kept.connection.sources()?;
        sources.extend_from_slice(&held)?;
    }
    Ok(sources)
}
