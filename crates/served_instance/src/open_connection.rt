//! The open connections of an instance, by their numbers.

ghost use Rattle.std.specs.Prelude.{◌≡◌, ◌++◌, ◌<◌, ◌≤◌, ℕ, List, map, option_map, position, IfOk, OnOk, length, slice_index_or};
ghost use Rattle.grpc_sending.specs.StoredSending.{SourceTexts};
ghost use Rattle.conn_core.specs.Past.{Past, with_taken};
ghost use Rattle.served_instance.specs.Acts.{BecomesAt, TakesStep, Pops, ReadsFrame};
ghost use Rattle.served_instance.specs.Cuts.{StepsAt};
ghost use Rattle.served_instance.specs.Shown.{connection_shown};
ghost use Rattle.served_instance.specs.Present.{is_numbered, IsPlaceOf};
ghost use Rattle.served_instance.specs.Connections.{LoneConnection, AreApart, open_ones};
ghost use Rattle.served_instance.specs.StandsFor.{AreServed};
ghost use Rattle.served_instance.specs.Places.{connection_at};

use conn_core::{CallEvent, Connection};
use std::alloc::AllocError;

/// An open connection and its number.
#[derive(Drop)]
pub(crate) struct OpenConnection {
    pub(crate) number: u32,
    pub(crate) connection: Connection,
}

/// The place of the connection of this number.
pub(crate) fn find(connections: &[OpenConnection], number: u32) -> Option<usize>
    ensures { result ≡ position (is_numbered number) connections.now }
{
    connections.iter().position(|kept| kept.number == number)
}

/// The connection of this number.
pub(crate) fn connection_at<'a>(
    connections: &'a [OpenConnection],
    number: u32,
) -> Option<&'a Connection>
    ensures { option_map (λ connection. connection.now) result
        ≡ connection_at number (map connection_shown connections.now) }
{
    match find(connections, number) {
        None => None,
        Some(place) => Some(&connections[place].connection),
    }
}

/// The connection of this number, which stands at this place unless one before it was closed.
pub(crate) fn connection_near<'a>(
    connections: &'a [OpenConnection],
    place: usize,
    number: u32,
) -> Option<&'a Connection>
    ensures { (texts : SourceTexts) (ks : List LoneConnection)
        → AreServed texts (map connection_shown connections.now) (open_ones ks) → AreApart ks
        → option_map (λ connection. connection.now) result
        ≡ connection_at number (map connection_shown connections.now) }
{
    if place < connections.len() && connections[place].number == number {
        return Some(&connections[place].connection);
    }
    connection_at(connections, number)
}

/// Takes bytes that were received on the connection at this place.
pub(crate) fn feed(
    connections: &mut [OpenConnection],
    place: usize,
    bytes: Vec<u8>,
) -> Result<(), AllocError>
    requires { place < length connections.old }
    ensures fed { OnOk result ((c : ℕ) → IsPlaceOf c place connections.old
        → BecomesAt c connections.old connections.new
        (TakesStep (λ p. record p { text = p.text ++ bytes.items }))) }
    ensures steps { StepsAt place connections.old connections.new }
{
    connections[place].connection.feed(bytes)
}

/// Takes the next whole frame of the connection at this place, and says whether there was one.
pub(crate) fn read_frame(
    connections: &mut [OpenConnection],
    place: usize,
) -> Result<bool, AllocError>
    requires { place < length connections.old }
    ensures read { IfOk result (λ more. (c : ℕ) → IsPlaceOf c place connections.old
        → BecomesAt c connections.old connections.new (ReadsFrame more)) }
    ensures steps { StepsAt place connections.old connections.new }
{
    connections[place].connection.read_frame()
}

/// Gives the next event of a call on the connection at this place that is due.
pub(crate) fn pop_event(connections: &mut [OpenConnection], place: usize) -> Option<CallEvent>
    requires { place < length connections.old }
    ensures event { (c : ℕ) → IsPlaceOf c place connections.old
        → BecomesAt c connections.old connections.new (Pops result) }
    ensures steps { StepsAt place connections.old connections.new }
{
    connections[place].connection.pop_event()
}

/// The client of the connection at this place took so many of the bytes that wait for it.
pub(crate) fn take(connections: &mut [OpenConnection], place: usize, count: usize)
    requires there { place < length connections.old }
    requires can { (o : OpenConnection)
        → count ≤ length (slice_index_or connections.old place o).connection.sending.pending }
    ensures taken { (c : ℕ) → IsPlaceOf c place connections.old
        → BecomesAt c connections.old connections.new (TakesStep (λ p. with_taken p count)) }
    ensures steps { StepsAt place connections.old connections.new }
{
    connections[place].connection.took(count)
}
