//! A server of two instances, event by event: one that opens, a stray, a refused one, and an error
//! of the connection. What whole runs print is shown by the stored scripts of `acceptance`.

use keyed_maps::MapKey;
use script::replay::parse;
use served_instance::EventRefusal;
use server_core::*;
use server_events::{Configs, Event, Limits, What};
use std::alloc::{AllocError, Global};
use std::test::*;

/// The server's SETTINGS, with which each connection begins.
const GREETING: &[u8] = b"\x00\x00\x06\x04\x00\x00\x00\x00\x00\x00\x03\x00\x00\x00\x64";

/// What no client sends first.
const WRONG: &[u8] = b"GET / HTTP/1.1\r\nHost: a\r\n\r\n";

/// Connection 7 of an instance opens.
fn opening(instance: u32) -> Event {
    Event {
        moment: 1,
        instance,
        what: What::Open(7),
    }
}

/// Bytes are taken of connection 7 of instance 1.
fn taking(count: u32) -> Event {
    Event {
        moment: 1,
        instance: 1,
        what: What::Took(7, count),
    }
}

/// Whether the server refuses an event for this reason, or takes it where there is none.
fn answers(server: &mut Server, event: Event, reason: Option<EventRefusal>) -> bool {
    server.step(event).err() == reason
}

/// Whether this is pending at connection 7 of an instance, and it has ended or not; where it is not
/// open there is neither.
fn is_at(server: &Server, instance: u32, pending: Option<&[u8]>, ended: Option<bool>) -> bool {
    server.pending(instance, 7) == pending && server.ended(instance, 7) == ended
}

/// Connection 7 of instance 1 is opened. Then an event is a stray, and one is refused.
fn is_begun(server: &mut Server) -> bool {
    is_at(server, 1, None, None)
        && answers(server, opening(1), None)
        && is_at(server, 1, Some(GREETING), Some(false))
        && answers(server, opening(2), Some(EventRefusal::NoSuchInstance))
        && answers(server, taking(16), Some(EventRefusal::TookTooMuch))
        && is_at(server, 1, Some(GREETING), Some(false))
}

fn wrong(alloc: Global) -> Result<Event, AllocError> {
    Ok(Event {
        moment: 2,
        instance: 1,
        what: What::Bytes(7, Vec::from_slice(alloc, WRONG)?),
    })
}

/// The connection gets what no client sends first.
fn is_ended(alloc: Global, server: &mut Server) -> bool {
    match wrong(alloc) {
        Ok(wrong) => answers(server, wrong, None) && server.ended(1, 7) == Some(true),
        Err(_) => false,
    }
}

/// Whether the server has two instances, and nothing of connection 7 but at instance 1.
fn is_apart(server: &Server) -> bool {
    server.instance(1).is_some()
        && server.instance(2).is_none()
        && is_at(server, 0, None, None)
        && is_at(server, 2, None, None)
}

/// Two instances, `a` and `b`.
const INSTANCES: &[u8] = b"instance a 1000 0\ninstance b 1000 0\n";

fn configs(alloc: Global) -> Option<Configs> {
    Configs::new(parse(alloc, Limits::usual(), INSTANCES).ok()?.configs).ok()
}

fn is_served(alloc: Global, configs: &Configs) -> bool {
    match Server::new(alloc, MapKey::known(), configs) {
        Ok(mut server) => {
            is_begun(&mut server) && is_ended(alloc, &mut server) && is_apart(&server)
        }
        Err(_) => false,
    }
}

fn passes(alloc: Global) -> bool {
    match configs(alloc) {
        Some(configs) => is_served(alloc, &configs),
        None => false,
    }
}

#[test]
fn event_by_event(rt: HostRuntime) {
    assert!(rt; passes(rt.alloc()));
}
