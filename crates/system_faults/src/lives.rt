//! Lives in which each call goes wrong in turn, and what is right of them.

use crate::cases::ERRORS;
use crate::life::{Lived, Setting, Shared, live};
use crate::run::Run;
use crate::tally::{NONE, Tally, add_fault, add_tallies};
use crate::tree::{Maker, NodeId, START};
use crate::trouble::{Change, Spot, Trouble};
use std::alloc::Global;
use std::io::{self, ErrorKind};

/// Where runs live.
pub static LIVES: [Setting; 4] = [
    Setting {
        name: "two runs",
        has_shells: false,
        shared: Shared::Nothing,
    },
    Setting {
        name: "two runs beside shells that do not answer",
        has_shells: true,
        shared: Shared::Nothing,
    },
    Setting {
        name: "two runs, of which one waits for what the other makes for both",
        has_shells: false,
        shared: Shared::Waits,
    },
    Setting {
        name: "two runs, of which one finds what the other made for both",
        has_shells: false,
        shared: Shared::Bound,
    },
];

/// The folder of the start.
const START_NAME: &str = "start-5000";

/// What a run is told where nothing goes wrong.
const TOLD: &str = "one, one, and a directory: file shut and a file: left there";

/// What the program of a run left.
fn left_by(usual: &Lived, run: usize) -> io::Result<[NodeId; 3]> {
    let run = usual.runs.get(run);
    run.and_then(|run| run.left_nodes)
        .ok_or(io::Error::from(ErrorKind::NotFound))
}

/// The names that programs change: what stands in the directory, in the folder of the start, and in
/// that of the first run.
fn spots(alloc: Global, usual: &Lived) -> io::Result<Vec<Spot>> {
    let tree = &usual.disk.tree;
    // By now there is the folder of the next start, too.
    let start = tree.made(Maker::Start, 0)?;
    let root = tree.made(Maker::Run, 1)?;
    let [work, out, _] = left_by(usual, 0)?;
    let names: [(NodeId, &'static str); 8] = [
        (START, START_NAME),
        (START, "former"),
        (start, "0-3"),
        (start, "0-3.aside"),
        (root, "dir"),
        (root, "work"),
        (work, "out"),
        (out, "file"),
    ];
    let mut spots = Vec::new(alloc);
    for (above, name) in names {
        spots.push(Spot { above, name })?;
    }
    Ok(spots)
}

/// What programs do to them. Links lead to what the other run left, and to what stands beside.
fn changes(usual: &Lived) -> io::Result<[Change; 9]> {
    let [_, out, file] = left_by(usual, 1)?;
    let beside = usual.disk.tree.made(Maker::Outside, 1)?;
    Ok([
        Change::Vanishes,
        Change::Link(out),
        Change::Link(file),
        Change::LinkOnce(file),
        Change::Directory,
        Change::File,
        Change::Fifo,
        Change::Renewed,
        Change::RenewedLink(beside),
    ])
}

impl Lived {
    /// Whether a run can feel what goes wrong.
    fn is_met_by(&self, run: &Run, trouble: Trouble) -> bool {
        match trouble {
            Trouble::Nothing => false,
            Trouble::Refused(_) => self.disk.met == Some(run.maker()),
            Trouble::Changed(spot, _) if spot.above == START => spot.name == START_NAME,
            Trouble::Changed(..) => run.maker() == Maker::Run,
            Trouble::Full => true,
        }
    }

    /// Whether a call failed so, or what was found is no file, or no more the same.
    fn is_given(&self, kind: ErrorKind, trouble: Trouble) -> bool {
        self.disk.given.iter().any(|given| *given == kind)
            || (kind == ErrorKind::InvalidInput && matches!(trouble, Trouble::Changed(..)))
    }

    /// What is not right of a run, if anything.
    fn fault_of(&self, run: &Run, usual: &Run, trouble: Trouble) -> Option<&'static str> {
        let is_met = self.is_met_by(run, trouble);
        let is_untrue = matches!(
            trouble,
            Trouble::Changed(..)
                | Trouble::Refused(
                    ErrorKind::NotFound | ErrorKind::NotADirectory | ErrorKind::FilesystemLoop
                )
        );
        let is_full = matches!(trouble, Trouble::Full);
        let is_same = run.told.as_str() == usual.told.as_str()
            && run.stood.as_slice() == usual.stood.as_slice();
        match (run.stays, run.failed) {
            (None, _) if !run.is_unmade && run.is_gone != usual.is_gone => Some(
                "it is not removed",
            ),
            (Some(kind), _) if is_full || !is_met || !self.is_given(kind, trouble) => {
                Some("it stays for nothing")
            }
            _ if run.is_gone && run.left > 0 && !is_untrue => Some(
                "what is left is said to be gone",
            ),
            (_, None) if is_same => None,
            _ if !is_met => Some("it is the other run's fault"),
            (_, Some(kind)) if !self.is_given(kind, trouble) => Some("the error is made up"),
            (_, None) if !is_untrue => Some("the answer is made up"),
            _ => None,
        }
    }

    /// What is not right of a life, if anything.
    fn fault(&self, usual: &Lived, trouble: Trouble) -> Option<&'static str> {
        let misdeed = self.disk.notes.misdeed();
        if misdeed.is_some() {
            return misdeed;
        }
        if !self.is_clear {
            return Some("something is left");
        }
        if let Some(kind) = self.unbegun {
            if !self.is_given(kind, trouble) {
                return Some("it does not begin");
            }
        }
        for (run, usual) in self.runs.iter().zip(usual.runs.iter()) {
            let fault = self.fault_of(run, usual, trouble);
            if fault.is_some() {
                return fault;
            }
        }
        None
    }
}

/// Has this go wrong at each call in turn. Of those at which it comes to something that is not
/// right, the first is told. What programs change is not the second run's.
fn try_each(
    alloc: Global,
    setting: &Setting,
    trouble: Trouble,
    usual: &Lived,
    text: &mut String,
) -> io::Result<Tally> {
    let name = setting.name;
    let mut tally = NONE;
    for at in 1..=usual.calls {
        let is_changed = matches!(trouble, Trouble::Changed(..));
        if is_changed && usual.disk.is_asked_for(Maker::Other, at) {
            continue;
        }
        let lived = live(alloc, setting, trouble, at)?;
        if lived.disk.met.is_none() {
            continue;
        }
        let fault = lived.fault(usual, trouble);
        if let Some(fault) = fault {
            if tally.is_right() {
                let what = format!(in alloc; "{name}, {trouble:?}, call {at}")?;
                add_fault(text, what.as_str(), fault)?;
            }
        }
        tally.count(&lived.disk.notes, fault.is_none());
    }
    Ok(tally)
}

/// Has each call of lives go wrong in turn, and tells what came of that.
pub fn carry_out_lives(alloc: Global, setting: &Setting) -> io::Result<String> {
    let name = setting.name;
    let mut text = String::new(alloc);
    let usual = live(alloc, setting, Trouble::Nothing, 0)?;
    for run in &usual.runs {
        if run.failed.is_some() || run.told.as_str() != TOLD || run.is_gone == setting.has_shells {
            add_fault(&mut text, name, run.told.as_str())?;
        }
    }
    let mut refused = NONE;
    for kind in &ERRORS {
        refused.add(try_each(alloc, setting, Trouble::Refused(*kind), &usual, &mut text)?);
    }
    let mut changed = NONE;
    for spot in &spots(alloc, &usual)? {
        for change in &changes(&usual)? {
            let trouble = Trouble::Changed(*spot, *change);
            changed.add(try_each(alloc, setting, trouble, &usual, &mut text)?);
        }
    }
    let full = try_each(alloc, setting, Trouble::Full, &usual, &mut text)?;
    add_tallies(
        alloc,
        &mut text,
        name,
        usual.calls,
        [refused, changed, full],
    )?;
    Ok(text)
}
