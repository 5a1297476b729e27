//! Sources of ranges that are over are released in the pool. This takes no memory.

ghost use Rattle.std.specs.Prelude.{◌≡◌, ◌≤◌, ℕ, List, [], length, map};
ghost use Rattle.blob_pool.specs.Slots.{count_at};
ghost use Rattle.blob_pool.specs.Moves.{Moves, no_holders};
ghost use Rattle.grpc_sending.specs.StoredSending.{SourceTexts};
ghost use Rattle.grpc_sending.specs.SortedQueues.{AreSorted};
ghost use Rattle.grpc_sending.specs.Sources.{count_of};
ghost use Rattle.conn_core.specs.StandsFor.{Becomes};
ghost use Rattle.served_instance.specs.Connections.{LoneConnection};
ghost use Rattle.served_instance.specs.Ranges.{AreTidy, Releases, range_holders};
ghost use Rattle.served_instance.specs.Shown.{connection_shown};
ghost use Rattle.served_instance.specs.StandsFor.{AreServed};

use crate::open_connection::OpenConnection;
use blob_pool::{Kept, Pool, release_kept};
use conn_core::Connection;

/// Releases each source that the connection tells.
pub(crate) fn release_spent(pool: &mut Pool, connection: &mut Connection)
    requires { (k : ℕ) → count_of k connection.old.sending.spent ≤ count_at pool.old k }
    ensures stands { Becomes connection.old (λ p. p) connection.new }
    ensures queues { connection.new.sending.queues ≡ connection.old.sending.queues }
    ensures told { connection.new.sending.spent ≡ [] }
    ensures sorted { AreSorted connection.new.sending.queues }
    ensures rest { connection.new ≡ record connection.old { sending = connection.new.sending } }
    ensures moves { Moves pool.old pool.new
        (λ k. count_of k connection.old.sending.spent) no_holders }
{
    'sources: while let Some(source) = connection.spent() {
        let kept = Kept::of_number(source);
        release_kept(pool, kept);
    }
}

/// Releases each source that one of the connections tells.
pub(crate) fn release_all(pool: &mut Pool, connections: &mut [OpenConnection])
    requires { (k : ℕ) → range_holders (map connection_shown connections.old) k
        ≤ count_at pool.old k }
    ensures stands { (texts : SourceTexts) (ls : List LoneConnection)
        → AreServed texts (map connection_shown connections.old) ls
        → AreServed texts (map connection_shown connections.new) ls }
    ensures tidy { AreTidy (map connection_shown connections.new) }
    ensures releases { Releases pool.old (map connection_shown connections.old)
        pool.new (map connection_shown connections.new) }
    ensures count { length connections.new ≡ length connections.old }
{
    for kept in connections.iter_mut() {
        release_spent(pool, &mut kept.connection);
    }
}
