//! Clients that break off, or send what they should not, beside an instance that is not to see it.
//!
//! The script has two instances. The bytes that come to the first are cut after each byte in turn,
//! ended after each byte by the event Closed, and changed to ff at each byte. The second has to
//! give what it gives in the run of the script as it is, and, where bytes are just cut, so has the
//! first, but that its events then have other places. So its lines are shown with place 0.

use crate::runs::{outcome, shown_at};
use crate::scripts::{configs, events, expanded};
use server_core::Outputs;
use server_events::{Configs, Event, What};
use tool_programs::{Output, Status};

/// What is done at a byte.
#[derive(Clone, Copy)]
enum Way {
    /// The event is cut in two behind it.
    Cut,
    /// The event ends behind it, and the connection is closed.
    Ended,
    /// It becomes ff.
    Changed,
    /// Each byte of an event comes as an event.
    Apart,
}

/// The instance whose client is broken.
const BROKEN: u32 = 0;

/// A script, and what its two instances give where nothing is broken.
#[derive(Drop)]
struct Case {
    configs: Configs,
    script: Vec<u8>,
    first: Vec<u8>,
    second: Vec<u8>,
}

/// Events of a broken client.
#[derive(Drop)]
struct Breaker {
    way: Way,
    /// How many bytes still come before the one at which it is broken; `None` behind that.
    left: Option<usize>,
    events: Vec<Event>,
}

impl Breaker {
    fn push(&mut self, moment: u64, what: What, output: &mut Output) {
        let added = self.events.push(Event {
            moment,
            instance: BROKEN,
            what,
        });
        output.expect(added);
    }

    fn push_bytes(&mut self, moment: u64, connection: u32, bytes: &[u8], output: &mut Output) {
        let bytes = output.bytes(Vec::from_slice(output.alloc, bytes));
        self.push(moment, What::Bytes(connection, bytes), output);
    }

    /// Adds the events of bytes of which the one at this place is that at which it is broken.
    fn add_broken(
        &mut self,
        moment: u64,
        connection: u32,
        mut bytes: Vec<u8>,
        at: usize,
        output: &mut Output,
    ) {
        let behind = at.saturating_add(1);
        match self.way {
            Way::Cut => {
                let front = bytes.get(..behind).unwrap_or(b"");
                let rest = bytes.get(behind..).unwrap_or(b"");
                self.push_bytes(moment, connection, front, output);
                self.push_bytes(moment, connection, rest, output);
            }
            Way::Ended => {
                let front = bytes.get(..behind).unwrap_or(b"");
                self.push_bytes(moment, connection, front, output);
                self.push(moment, What::Closed(connection), output);
            }
            Way::Changed => {
                if let Some(byte) = bytes.get_mut(at) {
                    *byte = 0xff;
                }
                self.push(moment, What::Bytes(connection, bytes), output);
            }
            Way::Apart => {}
        }
    }

    fn add_bytes(&mut self, moment: u64, connection: u32, bytes: Vec<u8>, output: &mut Output) {
        if matches!(self.way, Way::Apart) {
            for byte in bytes.chunks(1) {
                self.push_bytes(moment, connection, byte, output);
            }
            return;
        }
        match self.left {
            Some(left) if left < bytes.len() => {
                self.left = None;
                self.add_broken(moment, connection, bytes, left, output);
            }
            left => {
                self.left = left.map(|left| left.saturating_sub(bytes.len()));
                self.push(moment, What::Bytes(connection, bytes), output);
            }
        }
    }

    fn add(&mut self, event: Event, output: &mut Output) {
        if event.instance != BROKEN {
            output.expect(self.events.push(event));
            return;
        }
        let moment = event.moment;
        match event.what {
            What::Bytes(connection, bytes) => self.add_bytes(moment, connection, bytes, output),
            what => self.push(moment, what, output),
        }
    }
}

/// The events of a script, broken in this way at the byte at this place.
fn broken(script: &[u8], way: Way, place: usize, output: &mut Output) -> Vec<Event> {
    let mut breaker = Breaker {
        way,
        left: Some(place),
        events: Vec::new(output.alloc),
    };
    for event in events(script, None, output) {
        breaker.add(event, output);
    }
    breaker.events
}

/// How many bytes come to the first instance.
fn bytes_of(script: &[u8], output: &mut Output) -> usize {
    let mut count: usize = 0;
    for event in events(script, Some(BROKEN), output) {
        if let What::Bytes(_, bytes) = &event.what {
            count = count.saturating_add(bytes.len());
        }
    }
    count
}

/// The lines of the first instance, with place 0.
fn first_of(outputs: &mut Outputs, output: &mut Output) -> Vec<u8> {
    if let Some(given) = outputs.instances.get_mut(BROKEN as usize) {
        for ordered in given.orders.iter_mut() {
            ordered.place = 0;
        }
        for refused in given.refusals.iter_mut() {
            refused.place = 0;
        }
    }
    shown_at(outputs, BROKEN, output)
}

impl Case {
    /// Whether these are what the script gives where nothing is broken: the second instance's, and
    /// the first one's where bytes are only cut.
    fn is_met(&self, outputs: &mut Outputs, way: Way, output: &mut Output) -> bool {
        let is_second = shown_at(outputs, 1, output).as_slice() == self.second.as_slice();
        match way {
            Way::Ended | Way::Changed => is_second,
            Way::Cut | Way::Apart => {
                is_second && first_of(outputs, output).as_slice() == self.first.as_slice()
            }
        }
    }

    /// In how many runs, one broken in this way at each of so many bytes, something differs.
    fn differing(&self, way: Way, count: usize, output: &mut Output) -> usize {
        let mut differing: usize = 0;
        for place in 0..count {
            let events = broken(&self.script, way, place, output);
            let is_met = match outcome(&self.configs, events, output) {
                Some(mut outputs) => self.is_met(&mut outputs, way, output),
                None => false,
            };
            if !is_met {
                differing = differing.saturating_add(1);
            }
        }
        differing
    }

    fn try_all(&self, output: &mut Output) {
        output.print(&self.first);
        output.print(&self.second);
        let count = bytes_of(&self.script, output);
        let cut = self.differing(Way::Cut, count, output);
        let ended = self.differing(Way::Ended, count, output);
        let changed = self.differing(Way::Changed, count, output);
        let apart = self.differing(Way::Apart, 1, output);
        output.print_text(format!(in output.alloc;
            "{count} bytes: {cut} differ cut, {ended} ended, {changed} changed, {apart} apart\n"
        ));
    }
}

/// Prints what the two instances of a script give, and in how many runs with broken clients of the
/// first one something differs.
pub fn carry_out(text: &[u8], output: &mut Output) -> Status {
    let script = expanded(text, output);
    let Some(configs) = configs(&script, None, output) else {
        return Status::Done;
    };
    let events = events(&script, None, output);
    if let Some(mut outputs) = outcome(&configs, events, output) {
        let first = first_of(&mut outputs, output);
        let second = shown_at(&outputs, 1, output);
        let case = Case {
            configs,
            script,
            first,
            second,
        };
        case.try_all(output);
    }
    Status::Done
}
