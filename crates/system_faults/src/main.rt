//! Goes down into the folder of a run, makes, reads, lists and removes what is there, over a system
//! in memory, while something goes wrong at one call: the first, the second, and so on. So does a
//! start with all that it does for two runs, from their folders' making to their removal.
//!
//! Each line says of a case how many calls there are where nothing goes wrong, and how many runs
//! there were: those in which a call was refused, for each reason for which it can be; those in
//! which a program changed something before a call, each name that the case goes by in each way; and
//! those in which the disk was full from a call on. After each the folder is removed. A line that
//! begins with `WRONG` says what was not right.
#![tactic(auto)]

mod cases;
mod deed;
mod disk;
mod fake;
mod host;
mod judging;
mod left;
mod life;
mod lives;
mod run;
mod scene;
mod tally;
mod tree;
mod trouble;

use crate::cases::{CASES, Case, ERRORS, WAYS};
use crate::judging::{Came, Outcome, Wrong, run, told_absence};
use crate::lives::{LIVES, carry_out_lives};
use crate::scene::Target;
use crate::tally::{NONE, Tally, add_fault, add_tallies};
use std::alloc::Global;
use std::io::{self, Write};

/// More calls than there are.
const MOST_CALLS: u64 = 1_000;

/// What is not right of a run, if anything: it may come to what the case usually comes to, or to
/// what it comes to where what goes wrong was so from the start.
fn fault_of(
    alloc: Global,
    case: &Case,
    wrong: Wrong,
    came: &Came,
    usual: &Outcome,
) -> io::Result<Option<&'static str>> {
    let fault = came.fault(case.deed, wrong, usual);
    if fault.is_none() {
        return Ok(None);
    }
    let wrong_before = told_absence(wrong, came).unwrap_or(wrong);
    let before = run(alloc, case.deed, wrong_before, 1)?;
    Ok(came.fault(case.deed, wrong, &before.outcome))
}

/// Whether something went wrong in a run.
fn was_met(wrong: Wrong, came: &Came) -> bool {
    came.was_refused || !matches!(wrong, Wrong::Refused(_))
}

/// Has this go wrong at each call in turn. Of those at which it comes to something that is not
/// right, the first is told.
fn try_each(
    alloc: Global,
    case: &Case,
    wrong: Wrong,
    usual: &Outcome,
    text: &mut String,
) -> io::Result<Tally> {
    let mut tally = NONE;
    for at in 1..MOST_CALLS {
        let came = run(alloc, case.deed, wrong, at)?;
        if came.calls < at {
            break;
        }
        if !was_met(wrong, &came) {
            continue;
        }
        let fault = fault_of(alloc, case, wrong, &came, usual)?;
        if let Some(fault) = fault {
            if tally.is_right() {
                let what = format!(in alloc; "{}, {wrong:?}, call {at}: {fault}", case.name)?;
                add_fault(text, what.as_str(), came.outcome.words())?;
            }
        }
        tally.count(&came.notes, fault.is_none());
    }
    Ok(tally)
}

/// Has each call refused in turn, for each reason.
fn refuse_each(
    alloc: Global,
    case: &Case,
    usual: &Outcome,
    text: &mut String,
) -> io::Result<Tally> {
    let mut tally = NONE;
    for kind in &ERRORS {
        tally.add(try_each(alloc, case, Wrong::Refused(*kind), usual, text)?);
    }
    Ok(tally)
}

/// Has a program change each name before each call in turn, in each way.
fn change_each(
    alloc: Global,
    case: &Case,
    usual: &Outcome,
    text: &mut String,
) -> io::Result<Tally> {
    let mut tally = NONE;
    for target in &[Target::Root, case.above, case.item] {
        for way in &WAYS {
            let wrong = Wrong::Changed(*target, *way);
            tally.add(try_each(alloc, case, wrong, usual, text)?);
        }
    }
    Ok(tally)
}

/// Carries out a case in which each call goes wrong in turn, and tells what came of it.
fn carry_out_case(alloc: Global, case: &Case) -> io::Result<String> {
    let mut text = String::new(alloc);
    let usual = run(alloc, case.deed, Wrong::Nothing, 0)?;
    if !usual.outcome.is_answer(case.answer) {
        add_fault(&mut text, case.name, usual.outcome.words())?;
    }
    let tallies = [
        refuse_each(alloc, case, &usual.outcome, &mut text)?,
        change_each(alloc, case, &usual.outcome, &mut text)?,
        try_each(alloc, case, Wrong::Full, &usual.outcome, &mut text)?,
    ];
    add_tallies(alloc, &mut text, case.name, usual.calls, tallies)?;
    Ok(text)
}

fn main(rt: HostRuntime) -> io::Result<()> {
    for case in &CASES {
        let text = carry_out_case(rt.alloc(), case)?;
        rt.stdout().write_all(text.as_bytes())?;
    }
    for setting in &LIVES {
        let text = carry_out_lives(rt.alloc(), setting)?;
        rt.stdout().write_all(text.as_bytes())?;
    }
    Ok(())
}
