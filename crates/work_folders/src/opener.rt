//! Opening files on which a program may have a lease: whoever opens such a file waits until the
//! lease is given back, or for the seconds of `fs.lease-break-time`.
//!
//! So a shell opens each first. As long as the shell has it open, nobody gets a lease on it, and
//! the server opens what the shell has open, which is done at once. The shell alone may have to
//! wait. The server asks again later, and serves others meanwhile.

ghost use Rattle.std.specs.Prelude.{◌≡◌, IfOk, IfSome, codes};
ghost use Rattle.system.specs.Places.{WasFileAt, entry};

use crate::request::{Request, Target, line_of};
use run_calls::RunKey;
use run_folders::{entry_name, file_in, is_absence};
use run_shells::{Answer, OpeningShell};
use std::alloc::{AllocError, Global};
use std::io::{self, ErrorKind};
use std::time::{Duration, Instant};
use system::{Directory, Shell, Shells};

/// How often it is looked for an answer at the server's start, where a file is asked for first, and
/// later.
const START_PAUSES: u32 = 10_000;

const FIRST_PAUSES: u32 = 20;

const LATER_PAUSES: u32 = 1;

/// How many shells are started in so many milliseconds: whoever runs programs can end each at
/// once.
const MOST_STARTS: u32 = 16;

const STARTS_MILLISECONDS: u64 = 250;

/// How many shells there may be that were killed and have not ended.
const MOST_KILLED: usize = 16;

/// Whether what a process has open may have failed to open since the process has ended.
fn is_of_ended(error: &io::Error) -> bool {
    is_absence(error) || error.kind() == ErrorKind::PermissionDenied
}

/// The file that was opened for a target, where that has the name itself. What was found before may
/// be gone, and its identity another file's.
fn file_of<D: Directory>(target: &Target<'_, D>, file: D::File) -> io::Result<D::File>
    requires may { D.may_look (entry target.now.name.now (D.place target.now.directory.now)) }
    ensures { IfOk result (λ f. WasFileAt (D.File.has f) (D.File.stood_at f)
        (entry target.now.name.now (D.place target.now.directory.now))) }
{
    file_in(target.directory, entry_name(target.name)?, file)
}

/// What opens files of programs, one after another.
#[derive(Drop)]
pub(crate) struct Opener<D: Directory, S: Shells> {
    shell: Option<OpeningShell<S>>,
    request: Option<Request<D>>,
    /// Shells that were killed, until they have ended.
    killed: Vec<S::Shell>,
    /// From when on it is counted how many are started.
    counted: Option<Instant>,
    starts: u32,
}

impl<D: Directory, S: Shells<File = D::File>> Opener<D, S> {
    /// No shell stands yet.
    pub(crate) fn new(alloc: Global) -> Opener<D, S> {
        Opener {
            shell: None,
            request: None,
            killed: Vec::new(alloc),
            counted: None,
            starts: 0,
        }
    }

    /// Whether a shell opens what is open here: the system may not show it that.
    pub(crate) fn can_open(&mut self, shells: &mut S, directory: &D) -> io::Result<bool> {
        let mut shell = OpeningShell::start(shells)?;
        let line = line_of(shells.alloc(), directory, ".")?;
        let answer = if shell.tell(line.as_str()) {
            shell.answer(shells, START_PAUSES, Duration::ZERO)?
        } else {
            None
        };
        if answer == Some(Answer::Opened) && shell.tell("\n") {
            self.shell = Some(shell);
            return Ok(true);
        }
        self.end(shell)?;
        Ok(false)
    }

    /// Opens a file to read it. There is none while it is being opened, and while another one is:
    /// it is to be asked for again.
    pub(crate) fn open(
        &mut self,
        shells: &mut S,
        target: &Target<'_, D>,
    ) -> io::Result<Option<D::File>>
        requires may { D.may_look (entry target.now.name.now (D.place target.now.directory.now)) }
        requires look { D.may_look (entry (codes "linked") (D.place target.now.aside.now)) }
        requires change { D.may_change (entry (codes "linked") (D.place target.now.aside.now)) }
        ensures { IfOk result (λ opened. IfSome opened (λ f. WasFileAt (D.File.has f)
            (D.File.stood_at f)
            (entry target.now.name.now (D.place target.now.directory.now)))) }
    {
        let now = shells.now()?;
        let Some(mut request) = self.request_for(shells.alloc(), target, now)? else {
            return Ok(None);
        };
        request.ask(now);
        match self.go_on(shells, target, &mut request, now) {
            Ok(None) if request.is_late() => {
                self.give_up(request)?;
                Err(io::Error::from(ErrorKind::TimedOut))
            }
            Ok(None) => {
                self.request = Some(request);
                Ok(None)
            }
            answer => {
                request.unlink();
                answer
            }
        }
    }

    /// The request for a file, or a new one, unless another file is being opened.
    fn request_for(
        &mut self,
        alloc: Global,
        target: &Target<'_, D>,
        now: Instant,
    ) -> io::Result<Option<Request<D>>>
        requires may { D.may_look (entry target.now.name.now (D.place target.now.directory.now)) }
        requires look { D.may_look (entry (codes "linked") (D.place target.now.aside.now)) }
        requires change { D.may_change (entry (codes "linked") (D.place target.now.aside.now)) }
    {
        match self.request.take() {
            Some(request) if request.is_for(target) => Ok(Some(request)),
            Some(request) if !request.is_left(now) => {
                self.request = Some(request);
                Ok(None)
            }
            Some(request) => {
                self.give_up(request)?;
                Ok(Some(Request::new(alloc, target, now)?))
            }
            None => Ok(Some(Request::new(alloc, target, now)?)),
        }
    }

    /// Waits for the killed shells that have ended, so that none is left as a zombie.
    pub(crate) fn reap(&mut self) {
        self.killed
            .retain_mut(|shell| matches!(shell.look(), Ok(None)));
    }

    /// Opens no file of this run any more.
    pub(crate) fn forget(&mut self, run: RunKey) -> Result<(), AllocError> {
        match self.request.take() {
            Some(request) if request.is_of(run) => self.give_up(request),
            kept => {
                self.request = kept;
                Ok(())
            }
        }
    }

    /// Lets go of a file that is being opened. A shell that may be waiting at it is ended.
    fn give_up(&mut self, request: Request<D>) -> Result<(), AllocError> {
        request.unlink();
        if request.told().is_some() {
            self.end_shell()?;
        }
        Ok(())
    }

    /// Has a shell open a file, or looks whether it has.
    fn go_on(
        &mut self,
        shells: &mut S,
        target: &Target<'_, D>,
        request: &mut Request<D>,
        now: Instant,
    ) -> io::Result<Option<D::File>>
        requires may { D.may_look (entry target.now.name.now (D.place target.now.directory.now)) }
        ensures { IfOk result (λ opened. IfSome opened (λ f. WasFileAt (D.File.has f)
            (D.File.stood_at f)
            (entry target.now.name.now (D.place target.now.directory.now)))) }
    {
        let Some(mut shell) = self.standing(shells, now) else {
            // While none can be had, a run that has ended well waits.
            request.wait();
            return Ok(None);
        };
        let (pauses, told) = match request.told() {
            Some(told) => (LATER_PAUSES, told),
            None => {
                if !shell.tell(request.line()) {
                    self.end(shell)?;
                    return Ok(None);
                }
                (FIRST_PAUSES, Duration::ZERO)
            }
        };
        request.tell(told);
        match shell.answer(shells, pauses, told) {
            Ok(None) => {
                self.shell = Some(shell);
                Ok(None)
            }
            Ok(Some(answer)) => self.answered(target, shell, request, answer),
            Err(error) => {
                self.end(shell)?;
                Err(error)
            }
        }
    }

    /// The shell answered: the file, where it has that open. Where it is lost another one is asked.
    fn answered(
        &mut self,
        target: &Target<'_, D>,
        shell: OpeningShell<S>,
        request: &mut Request<D>,
        answer: Answer,
    ) -> io::Result<Option<D::File>>
        requires may { D.may_look (entry target.now.name.now (D.place target.now.directory.now)) }
        ensures { IfOk result (λ opened. IfSome opened (λ f. WasFileAt (D.File.has f)
            (D.File.stood_at f)
            (entry target.now.name.now (D.place target.now.directory.now)))) }
    {
        match answer {
            Answer::Opened => {
                let opened = self.take_opened(shell, request)?;
                match opened {
                    Ok(file) => Ok(Some(file_of(target, file)?)),
                    Err(error) if is_of_ended(&error) => Ok(None),
                    Err(error) => Err(error),
                }
            }
            Answer::Refused => {
                self.shell = Some(shell);
                Err(io::Error::from(ErrorKind::PermissionDenied))
            }
            Answer::Waits => {
                self.end(shell)?;
                Err(io::Error::from(ErrorKind::TimedOut))
            }
            Answer::Lost => {
                self.end(shell)?;
                request.untell();
                Ok(None)
            }
        }
    }

    /// Opens what a shell has open, which lets go of it then.
    fn take_opened(
        &mut self,
        shell: OpeningShell<S>,
        request: &mut Request<D>,
    ) -> Result<io::Result<D::File>, AllocError> {
        let mut shell = shell;
        let opened = shell.opened(request.found());
        if shell.tell("\n") {
            self.shell = Some(shell);
        } else {
            self.end(shell)?;
        }
        request.untell();
        Ok(opened)
    }

    /// The shell that stands, or a new one, unless none can be had or too many were started just
    /// before.
    fn standing(&mut self, shells: &mut S, now: Instant) -> Option<OpeningShell<S>> {
        if let Some(shell) = self.shell.take() {
            return Some(shell);
        }
        let is_recent = |then: Instant| {
            now.duration_since(then) < Duration::from_millis(STARTS_MILLISECONDS)
        };
        if !self.counted.is_some_and(is_recent) {
            self.counted = Some(now);
            self.starts = 0;
        }
        self.reap();
        if self.starts >= MOST_STARTS || self.killed.len() >= MOST_KILLED {
            return None;
        }
        self.starts = self.starts.saturating_add(1);
        OpeningShell::start(shells).ok()
    }

    /// Ends the shell that stands.
    fn end_shell(&mut self) -> Result<(), AllocError> {
        match self.shell.take() {
            Some(shell) => self.end(shell),
            None => Ok(()),
        }
    }

    fn end(&mut self, shell: OpeningShell<S>) -> Result<(), AllocError> {
        self.killed.push(shell.killed())?;
        Ok(())
    }
}
