//! Ending sessions of programs without waiting, by one shell that is kept for it.

ghost use Rattle.std.specs.Prelude.{◌≡◌, ◌≤◌, ◌⊎◌, Ok, None, All, IfOk, IfSome, IsSomeAnd, true, false};
ghost use Rattle.system.specs.Processes.{WasIn};
ghost use Rattle.system.specs.declared.sessions.Progress.TheVariants as Far;
ghost use Rattle.run_shells.specs.Ending.{WasAnswered};

use crate::alive::alive_since;
use crate::asked::{Asked, has_ended};
use crate::processes::Processes;
use crate::status::is_there;
use std::alloc::AllocError;
use std::io::{self, ErrorKind};
use std::time::{Duration, Instant};
use system::{Child, Progress, Question, Session, Sessions, Shells, Signals};

/// How often it is looked for what is left of a session, while anything is.
const MOST_SEARCHES: u32 = 20;

/// How long after it was tried to start a shell it is tried again, in milliseconds.
const TRIED_AGAIN: u64 = 250;

/// How long after it was looked whether the shell stands that is looked again, in milliseconds.
const KEPT_AGAIN: u64 = 1;

/// Finds an error where a session cannot be ended: 0 and 1 would stand for others than those of
/// programs.
fn check(session: u32) -> io::Result<()>
    ensures { IfOk result (λ _. 2 ≤ session) }
{
    if session < 2 {
        return Err(io::Error::from(ErrorKind::InvalidInput));
    }
    Ok(())
}

/// Ends sessions.
///
/// Whoever runs programs can end or stop the shell, or leave no room for a new one. So it is begun
/// again when it has ended, and replaced when it does not answer; while there is none, all that is
/// asked for is still to be done.
#[derive(Drop)]
pub struct ShellSessions<S: Signals> {
    shells: S,
    shell: Option<Asked<S::Signaller>>,
    /// The number of the shell, or of the one that is started next.
    number: u64,
    /// When it was tried last to start one.
    tried: Option<Instant>,
    /// When it was looked last whether the shell stands.
    kept: Option<Instant>,
    /// Those that were killed, until they have ended.
    killed: Vec<S::Signaller>,
    processes: Processes,
    /// What was answered when it was looked for processes last.
    looked: Option<Question>,
}

impl<S: Signals> ShellSessions<S> {
    /// No shell stands yet.
    pub fn new(shells: S) -> ShellSessions<S> {
        let alloc = shells.alloc();
        ShellSessions {
            shells,
            shell: None,
            number: 0,
            tried: None,
            kept: None,
            killed: Vec::new(alloc),
            processes: Processes::new(alloc),
            looked: None,
        }
    }

    /// Takes out the shell, where one can be had now.
    fn taken(&mut self, now: Instant) -> Result<Option<Asked<S::Signaller>>, AllocError>
        ensures runs { IfOk result (λ taken. IfSome taken (λ shell.
            S.Signaller.ended shell.shell ≡ None)) }
    {
        self.killed.retain_mut(|shell| !has_ended(shell));
        self.killed.reserve(1)?;
        if let Some(mut shell) = self.shell.take() {
            if shell.is_well(now) {
                return Ok(Some(shell));
            }
            self.number = self.number.wrapping_add(1);
            shell.kill();
            // There is room for it.
            let _ = self.killed.push(shell.shell);
        }
        Ok(self.started(now))
    }

    /// A new shell, unless it cannot be started, or that was tried just before.
    fn started(&mut self, now: Instant) -> Option<Asked<S::Signaller>>
        ensures runs { IfSome result (λ shell. S.Signaller.ended shell.shell ≡ None) }
        ensures unasked { IfSome result (λ shell. shell.questions.asked ≡ 0) }
        ensures number { self.new.number ≡ self.old.number }
    {
        if let Some(tried) = self.tried {
            if now.duration_since(tried) < Duration::from_millis(TRIED_AGAIN) {
                return None;
            }
        }
        self.tried = Some(now);
        let shell = self.shells.start_signaller().ok()?;
        Some(Asked::new(shell, now))
    }

    /// Whether nothing is left of a session whose first process was waited for: another one has its
    /// number, or that is seen before the shell is asked.
    fn has_gone(&self, number: u32, begun: Instant, progress: Progress) -> io::Result<bool> {
        if is_there(&self.shells, number)? {
            return Ok(true);
        }
        match progress {
            Progress::Alive | Progress::Told(_) => match alive_since(&self.shells, number, begun)? {
                Some(alive) => Ok(alive.is_empty()),
                None => Ok(false),
            },
            Progress::Asked(..) | Progress::Ended => Ok(false),
        }
    }

    fn go_on(
        &mut self,
        shell: &mut Asked<S::Signaller>,
        child: &S::Child,
        session: Session,
        progress: Progress,
    ) -> io::Result<Progress>
        requires number { 2 ≤ S.Child.number child.now }
        requires own { session.is_reaped ≡ false → S.Child.ended child.now ≡ None }
        ensures ended { result ≡ Ok Far.Ended → (progress ≡ Far.Ended)
            ⊎ WasAnswered progress self.old.number shell.old.questions.answered }
        ensures number { self.new.number ≡ self.old.number }
        ensures answered { shell.new.questions.answered ≡ shell.old.questions.answered }
    {
        match progress {
            Progress::Asked(question, searches) if question.asked == self.number => {
                if question.place > shell.questions.answered() {
                    return Ok(progress);
                }
                self.end_rest(shell, child, session, question, searches)
            }
            _ => {
                let told = self
                    .shells
                    .end_group(&mut shell.shell, child, session.is_reaped)?;
                match shell.questions.ask(told) {
                    None => Ok(progress),
                    Some(place) => Ok(self.asked(place, MOST_SEARCHES)),
                }
            }
        }
    }

    fn asked(&self, place: u64, searches: u32) -> Progress
        ensures { result ≡ Far.Asked (record { asked = self.now.number; place = place })
            searches }
    {
        let asked = self.number;
        Progress::Asked(Question { asked, place }, searches)
    }

    /// Ends what is left of a session, of which all that was found was ended by the answer to a
    /// question.
    fn end_rest(
        &mut self,
        shell: &mut Asked<S::Signaller>,
        child: &S::Child,
        session: Session,
        question: Question,
        searches: u32,
    ) -> io::Result<Progress>
        requires number { 2 ≤ S.Child.number child.now }
        requires own { session.is_reaped ≡ false → S.Child.ended child.now ≡ None }
        ensures number { self.new.number ≡ self.old.number }
        ensures answered { shell.new.questions.answered ≡ shell.old.questions.answered }
    {
        if searches == 0 {
            return Ok(Progress::Ended);
        }
        let left = self.left(shell, child.number(), session.begun, question)?;
        if left.is_empty() {
            return Ok(Progress::Ended);
        }
        let (place, were_all) = self.end_each(shell, child, session.is_reaped, &left)?;
        let searches = if were_all { searches - 1 } else { searches };
        Ok(self.asked(place, searches))
    }

    /// What is left of a session.
    fn left(
        &mut self,
        shell: &Asked<S::Signaller>,
        number: u32,
        begun: Instant,
        question: Question,
    ) -> io::Result<Vec<u32>>
        ensures found { IfOk result (λ left. All (WasIn S.showed number) left.items) }
        ensures number { self.new.number ≡ self.old.number }
    {
        match alive_since(&self.shells, number, begun)? {
            Some(left) => Ok(left),
            None => {
                self.look_since(shell, question)?;
                self.processes.alive_in(&self.shells, number)
            }
        }
    }

    /// Looks for processes, unless that was done since a question was answered.
    fn look_since(&mut self, shell: &Asked<S::Signaller>, question: Question) -> io::Result<()>
        ensures number { self.new.number ≡ self.old.number }
    {
        if let Some(looked) = self.looked {
            if looked.asked == self.number && question.place <= looked.place {
                return Ok(());
            }
        }
        self.looked = None;
        self.processes.look(&self.shells)?;
        self.looked = Some(Question {
            asked: self.number,
            place: shell.questions.answered(),
        });
        Ok(())
    }

    /// Tells a shell processes of a session to end, as many as it can be told. Which question was
    /// the last of them, and whether it was told them all.
    fn end_each(
        &self,
        shell: &mut Asked<S::Signaller>,
        child: &S::Child,
        is_reaped: bool,
        processes: &[u32],
    ) -> Result<(u64, bool), AllocError>
        requires number { 2 ≤ S.Child.number child.now }
        requires own { is_reaped ≡ false → S.Child.ended child.now ≡ None }
        requires found { All (WasIn S.showed (S.Child.number child.now)) processes.now }
        ensures answered { shell.new.questions.answered ≡ shell.old.questions.answered }
    {
        let mut last = shell.questions.answered();
        for process in processes {
            let told = self
                .shells
                .end_process(&mut shell.shell, child, *process, is_reaped)?;
            match shell.questions.ask(told) {
                Some(place) => last = place,
                None => return Ok((last, false)),
            }
        }
        Ok((last, true))
    }

    /// Tells a shell to have a program and the group of its number end by themselves. Whether it was
    /// told that.
    fn tell_both(
        &self,
        shell: &mut Asked<S::Signaller>,
        child: &S::Child,
    ) -> Result<bool, AllocError>
        requires number { 2 ≤ S.Child.number child.now }
        requires own { S.Child.ended child.now ≡ None }
        ensures answered { shell.new.questions.answered ≡ shell.old.questions.answered }
    {
        let told = self.shells.tell_first(&mut shell.shell, child)?;
        let is_told = shell.questions.ask(told).is_some();
        if !is_told {
            return Ok(false);
        }
        let told = self.shells.tell_group(&mut shell.shell, child)?;
        Ok(shell.questions.ask(told).is_some())
    }
}

impl<S: Signals> Sessions for ShellSessions<S> {
    type Child = S::Child;

    /// Sees to it that a shell stands that has not ended and that answers, where one can be had
    /// now, unless that was done a moment ago.
    fn keep(&mut self, now: Instant) -> io::Result<()> {
        if let Some(kept) = self.kept {
            if now.duration_since(kept) < Duration::from_millis(KEPT_AGAIN) {
                return Ok(());
            }
        }
        self.kept = Some(now);
        let shell = self.taken(now)?;
        self.shell = shell;
        Ok(())
    }

    /// Tells a session to end by itself, where that is possible now.
    fn tell(&mut self, child: &S::Child, now: Instant) -> io::Result<Progress>
        requires { S.Child.ended child.now ≡ None }
        ensures told { IfOk result (λ next. (next ≡ Far.Alive) ⊎ (next ≡ Far.Told now)) }
    {
        check(child.number())?;
        let Some(mut shell) = self.taken(now)? else {
            return Ok(Progress::Alive);
        };
        let answer = self.tell_both(&mut shell, child);
        self.shell = Some(shell);
        if answer? {
            Ok(Progress::Told(now))
        } else {
            Ok(Progress::Alive)
        }
    }

    /// Does the next of what is to be done to end a session, and tells how far that is. Its first
    /// process and the group of that are ended, and then all else that is found in it, until
    /// nothing is, or it was looked often. Nothing is done where nothing is left of it.
    ///
    /// Where another process has its number, it has ended.
    fn end(
        &mut self,
        child: &S::Child,
        session: Session,
        progress: Progress,
        now: Instant,
    ) -> io::Result<Progress>
        requires { session.is_reaped ≡ false → S.Child.ended child.now ≡ None }
        ensures ended { result ≡ Ok Far.Ended → (progress ≡ Far.Ended)
            ⊎ ((session.is_reaped ≡ true) ⊎ IsSomeAnd self.new.shell (λ shell.
            WasAnswered progress self.new.number shell.questions.answered)) }
    {
        check(child.number())?;
        if let Progress::Ended = progress {
            return Ok(Progress::Ended);
        }
        if session.is_reaped && self.has_gone(child.number(), session.begun, progress)? {
            return Ok(Progress::Ended);
        }
        let Some(mut shell) = self.taken(now)? else {
            return Ok(progress);
        };
        let answer = self.go_on(&mut shell, child, session, progress);
        self.shell = Some(shell);
        answer
    }
}
