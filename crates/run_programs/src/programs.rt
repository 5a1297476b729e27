//! Programs of this host.

ghost use Rattle.std.specs.Prelude.{◌≡◌, ◌<◌, ◌≤◌, ◌+◌, [], true, None, Ok, Some, IfOk, IfSome, OnOk, find, length, string_bytes};
ghost use Rattle.run_calls.specs.Calls.{Adds, bytes_of, called, end_asked, forget_asked, kill_asked, killed_of, length_asked, length_of, program_done, read_asked, start_asked, started_of, state_of};
ghost use Rattle.run_calls.specs.Failures.{Counts};
ghost use Rattle.run_calls.specs.Values.{IsInRange, command_shown, place_shown};
ghost use Rattle.run_folders.specs.Folders.{root_path};
ghost use Rattle.system.specs.Starting.{Is, StartsBy};
ghost use Rattle.run_programs.specs.Launching.{StartsLauncher};
ghost use Rattle.run_programs.specs.Known.{HasEndedWith, IsOfAt, KnowsOneMore, OthersStay, is_known, is_known_or_sought, started_as};
ghost use Rattle.run_programs.specs.Spawning.{StartsItself};
ghost use Rattle.run_programs.specs.Ways.{AddsAtMost, AddsNone, KeepsWay, StartsFor, StartsFound, is_of, launcher_of, sought_for, sought_of, sought_shown};

use crate::children::{make_room, reap, refresh};
use crate::exec_size::check_size;
use crate::host::has_sessions;
use crate::launching::Launcher;
use crate::looks::{LOOKS, Looks};
use crate::search::{Progress, Search, search_from};
use crate::sought::Sought;
use crate::started::{self, Started, StartedAs};
use crate::starting::{add_variables, bare_command};
use crate::way::Way;
use run_calls::{Command as Ordered, Place, Programs, RunKey, Stream};
use run_folders::{root_path, working_path};
use std::cell::Cell;
use std::io::{self, ErrorKind};
use system::{Child, Host, OpenFile, Sessions, Spawner};

/// Which of these is the program of a run.
fn place_of<C: Child, F: OpenFile>(started: &[Started<C, F>], run: RunKey) -> io::Result<usize>
    ensures within { IfOk result (λ at. at < length started.now) }
    ensures own { IfOk result (λ at. IsOfAt run started.now at) }
{
    match started.iter().position(|each| each.is_of(run)) {
        Some(at) => Ok(at),
        None => Err(io::Error::from(ErrorKind::NotFound)),
    }
}

/// There is no program of the name that a command gives.
fn missing() -> io::Error {
    io::Error::new(ErrorKind::NotFound, "no such program")
}

/// What has that name may not be executed, as the system says it.
fn refused() -> io::Error {
    io::Error::new(ErrorKind::PermissionDenied, "Permission denied")
}

/// Counts a call that failed, and notes why it did.
fn count<T>(faults: &mut u64, failure: &Cell<Option<io::Error>>, answer: &io::Result<T>)
    ensures { Counts answer.now faults.old faults.new }
{
    if let Err(error) = answer {
        failure.set(Some(*error));
        *faults = faults.saturating_add(1);
    }
}

/// The programs of runs, one for each. Nothing here can start any but the spawner.
#[derive(Drop)]
struct Table<H: Host, S: Spawner, E: Sessions> {
    host: H,
    spawner: S,
    work: String,
    has_sessions: bool,
    way: Way,
    sessions: E,
    looks: Looks,
    started: Vec<Started<S::Child, S::File>>,
    /// Those of which nothing but their end is awaited.
    left: Vec<S::Child>,
}

impl<H: Host, S: Spawner<File = H::File>, E: Sessions<Child = S::Child>> Table<H, S, E> {
    fn start(&mut self, place: &Place, ordered: &Ordered) -> io::Result<()>
        ensures starts { StartsFor self.old (place_shown place.now) (command_shown ordered.now)
            result (S.started self.old.spawner) (S.started self.new.spawner) }
        ensures known { KnowsOneMore place.now.run (started_as self.old.way)
            self.old.started.items self.new.started.items }
        ensures kept { OnOk result (is_known_or_sought place.now.run self.new.started.items
            self.new.way ≡ true) }
        ensures sought { AddsAtMost (sought_for self.old (place_shown place.now)
            (command_shown ordered.now)) self.old.way self.new.way }
        ensures same { KeepsWay self.old self.new }
    {
        check_size(ordered)?;
        refresh(
            &self.host,
            self.has_sessions,
            &mut self.sessions,
            &mut self.left,
        )?;
        match &self.way {
            Way::By(launcher) => {
                let mut command = self.told(launcher, place, ordered)?;
                self.launch(place.run, StartedAs::Launcher, &mut command)
            }
            Way::AsTheyAre(_) => self.seek(place, ordered),
        }
    }

    /// The command that starts a launcher, which is told the folder of the run. The program is not
    /// looked for: it may be there for the launcher alone.
    fn told(&self, launcher: &Launcher, place: &Place, ordered: &Ordered) -> io::Result<S::Command>
        ensures { IfOk result (λ command. StartsLauncher self.now.has_sessions launcher.now
            (place_shown place.now) (root_path (string_bytes self.now.work)
            place.now.run.instance place.now.run.job) (command_shown ordered.now)
            (S.Command.shown command)) }
    {
        launcher.check(&self.host)?;
        let alloc = self.host.alloc();
        let root = root_path(alloc, self.work.as_str(), place.run)?;
        launcher.command(
            alloc,
            &self.spawner,
            self.has_sessions,
            place,
            root.as_str(),
            ordered,
        )
    }

    /// Looks for a program, and starts it where it is found at once. Otherwise its absence would
    /// show as the code of what is started first.
    fn seek(&mut self, place: &Place, ordered: &Ordered) -> io::Result<()>
        requires { launcher_of self.old.way ≡ None }
        ensures starts { StartsFound self.old (Some (sought_for self.old (place_shown place.now)
            (command_shown ordered.now))) result (S.started self.old.spawner)
            (S.started self.new.spawner) }
        ensures known { KnowsOneMore place.now.run StartedAs.Itself
            self.old.started.items self.new.started.items }
        ensures kept { OnOk result (is_known_or_sought place.now.run self.new.started.items
            self.new.way ≡ true) }
        ensures sought { AddsAtMost (sought_for self.old (place_shown place.now)
            (command_shown ordered.now)) self.old.way self.new.way }
        ensures same { KeepsWay self.old self.new }
    {
        let alloc = self.host.alloc();
        let directory = working_path(alloc, self.work.as_str(), place)?;
        match search_from(&self.host, directory.as_str(), ordered, Progress::none())? {
            Search::Found => self.start_found(place.run, directory.as_str(), ordered),
            Search::Missing => Err(missing()),
            Search::Refused => Err(refused()),
            Search::GoesOn(progress) => {
                let sought = Sought::new(alloc, place.run, ordered, directory, progress)?;
                self.way.add(sought)?;
                Ok(())
            }
        }
    }

    /// Starts a program that was found.
    fn start_found(&mut self, run: RunKey, directory: &str, ordered: &Ordered) -> io::Result<()>
        ensures starts { StartsBy (StartsItself self.old.has_sessions directory.now
            (command_shown ordered.now)) result (S.started self.old.spawner)
            (S.started self.new.spawner) }
        ensures known { KnowsOneMore run StartedAs.Itself
            self.old.started.items self.new.started.items }
        ensures kept { OnOk result (is_known run self.new.started.items ≡ true) }
        ensures way { self.new.way ≡ self.old.way }
        ensures same { KeepsWay self.old self.new }
    {
        let words = &ordered.arguments;
        let mut command = bare_command(&self.spawner, self.has_sessions, words, directory)?;
        add_variables(&mut command, &ordered.variables)?;
        self.launch(run, StartedAs::Itself, &mut command)
    }

    /// Starts a command that lacks its streams.
    fn launch(
        &mut self,
        run: RunKey,
        started_as: StartedAs,
        command: &mut S::Command,
    ) -> io::Result<()>
        ensures starts { StartsBy (Is (S.Command.shown command.old)) result
            (S.started self.old.spawner) (S.started self.new.spawner) }
        ensures known { KnowsOneMore run started_as self.old.started.items
            self.new.started.items }
        ensures kept { OnOk result (is_known run self.new.started.items ≡ true) }
        ensures way { self.new.way ≡ self.old.way }
        ensures same { KeepsWay self.old self.new }
    {
        make_room(&mut self.started, &mut self.left)?;
        let begun = self.host.now()?;
        let started = started::start(
            &self.host,
            self.work.as_str(),
            run,
            started_as,
            &mut self.spawner,
            command,
            begun,
        )?;
        self.started.push_reserved(started);
        Ok(())
    }

    /// Goes on looking for a program, and starts it where it is found.
    fn go_on(&mut self, sought: Sought) -> io::Result<()>
        requires { launcher_of self.old.way ≡ None }
        ensures starts { StartsFound self.old (Some (sought_shown sought)) result
            (S.started self.old.spawner) (S.started self.new.spawner) }
        ensures sought { AddsAtMost (sought_shown sought) self.old.way self.new.way }
        ensures same { KeepsWay self.old self.new }
    {
        let mut sought = sought;
        match sought.go_on(&self.host)? {
            Search::Found => {
                self.start_found(sought.run(), sought.directory(), sought.ordered())
            }
            Search::Missing => Err(missing()),
            Search::Refused => Err(refused()),
            Search::GoesOn(_) => {
                self.way.add(sought)?;
                Ok(())
            }
        }
    }

    fn ask(&mut self, run: RunKey) -> io::Result<Option<i32>>
        ensures range { IfOk result (λ state. IfSome state IsInRange) }
        ensures ended { IfOk result (λ state. IfSome state
            (HasEndedWith S.Child.ended run self.new.started.items)) }
        ensures starts { StartsFound self.old (find (is_of run) (sought_of self.old.way)) result
            (S.started self.old.spawner) (S.started self.new.spawner) }
        ensures none { find (is_of run) (sought_of self.old.way) ≡ None
            → self.new.spawner ≡ self.old.spawner }
        ensures sought { AddsNone self.old.way self.new.way }
        ensures same { KeepsWay self.old self.new }
    {
        refresh(
            &self.host,
            self.has_sessions,
            &mut self.sessions,
            &mut self.left,
        )?;
        match self.way.take(run) {
            Some(sought) => {
                self.go_on(sought)?;
                Ok(None)
            }
            None => {
                let at = place_of(&self.started, run)?;
                self.started[at].ask()
            }
        }
    }

    /// Looks at what this number chooses. What is looked for comes behind what runs, as to go on
    /// with it takes longer.
    fn look(&mut self, number: usize) -> Option<RunKey>
        ensures spawner { self.new.spawner ≡ self.old.spawner }
        ensures way { self.new.way ≡ self.old.way }
        ensures same { KeepsWay self.old self.new }
    {
        if number < LOOKS {
            return self.looks.look(&mut self.started, number);
        }
        let count = self.way.sought_count();
        let place = self.looks.sought_place(count, number - LOOKS)?;
        self.way.sought_at(place)
    }

    fn kill(&mut self, run: RunKey) -> io::Result<bool>
        ensures spawner { self.new.spawner ≡ self.old.spawner }
        ensures sought { AddsNone self.old.way self.new.way }
        ensures same { KeepsWay self.old self.new }
        ensures others { OthersStay run self.old.started.items self.new.started.items }
    {
        refresh(
            &self.host,
            self.has_sessions,
            &mut self.sessions,
            &mut self.left,
        )?;
        if self.way.take(run).is_some() {
            return Ok(true);
        }
        let has_sessions = self.has_sessions;
        let now = self.host.now()?;
        let Ok(at) = place_of(&self.started, run) else {
            return Ok(true);
        };
        if has_sessions {
            self.started[at].end(&mut self.sessions, now)
        } else {
            self.started[at].kill()
        }
    }

    fn length(&mut self, run: RunKey) -> io::Result<u64>
        ensures spawner { self.new.spawner ≡ self.old.spawner }
        ensures way { self.new.way ≡ self.old.way }
        ensures same { KeepsWay self.old self.new }
        ensures others { OthersStay run self.old.started.items self.new.started.items }
    {
        let at = place_of(&self.started, run)?;
        let length = self.started[at].length()?;
        started::check_room(&self.host, self.work.as_str(), run)?;
        Ok(length)
    }

    fn read(&mut self, run: RunKey, stream: Stream, from: u64, most: u32) -> io::Result<Vec<u8>>
        ensures within { IfOk result (λ bytes. length bytes.items ≤ most) }
        ensures spawner { self.new.spawner ≡ self.old.spawner }
        ensures way { self.new.way ≡ self.old.way }
        ensures same { KeepsWay self.old self.new }
        ensures started { self.new.started ≡ self.old.started }
    {
        let alloc = self.host.alloc();
        let at = place_of(&self.started, run)?;
        self.started[at].read(alloc, stream, from, most)
    }

    fn last_words(&self, run: RunKey, most: u32) -> io::Result<Vec<u8>>
        ensures { IfOk result (λ bytes. length bytes.items ≤ most) }
    {
        match place_of(&self.started, run) {
            Ok(at) => self.started[at].last_words(&self.host, self.work.as_str(), most),
            Err(_) => self.way.absence(&self.host, most),
        }
    }

    fn forget(&mut self, run: RunKey)
        ensures spawner { self.new.spawner ≡ self.old.spawner }
        ensures sought { AddsNone self.old.way self.new.way }
        ensures same { KeepsWay self.old self.new }
        ensures others { OthersStay run self.old.started.items self.new.started.items }
    {
        drop(self.way.take(run));
        let Ok(at) = place_of(&self.started, run) else {
            return;
        };
        let child = self.started.remove(at).child();
        // There is room for it since it was started.
        let _ = self.left.push(child);
        reap(&mut self.left);
    }
}

/// Programs, each in the folder of its run, and in a session of its own where the host has
/// `setsid`; where it has not, what a program started is not ended with it.
#[derive(Drop)]
pub struct RunPrograms<'a, H: Host, S: Spawner, E: Sessions> {
    table: Table<H, S, E>,
    faults: u64,
    /// Why the call failed that did last, of whoever notes it there.
    failure: &'a Cell<Option<io::Error>>,
}

impl<'a, H: Host, S: Spawner<File = H::File>, E: Sessions<Child = S::Child>> RunPrograms<
    'a,
    H,
    S,
    E,
> {
    /// No programs yet. They are started in the folders of this directory, by a launcher, or as
    /// they are. Why a call failed is noted there.
    pub fn new(
        host: H,
        sessions: E,
        spawner: S,
        work: String,
        launcher: Option<Launcher>,
        failure: &'a Cell<Option<io::Error>>,
    ) -> RunPrograms<'a, H, S, E>
        ensures launcher { launcher_of result.table.way ≡ launcher }
        ensures spawner { result.table.spawner ≡ spawner }
        ensures work { result.table.work ≡ work }
        ensures none { sought_of result.table.way ≡ [] }
    {
        let (alloc, has_sessions) = (host.alloc(), has_sessions(&host));
        RunPrograms {
            table: Table {
                host,
                spawner,
                work,
                has_sessions,
                way: Way::new(alloc, launcher),
                sessions,
                looks: Looks::new(alloc),
                started: Vec::new(alloc),
                left: Vec::new(alloc),
            },
            faults: 0,
            failure,
        }
    }
}

impl<'a, H: Host, S: Spawner<File = H::File>, E: Sessions<Child = S::Child>> Programs
    for RunPrograms<'a, H, S, E> {
    ghost failures = { λ p. p.faults };

    fn start(&mut self, place: &Place, command: &Ordered) -> io::Result<()>
        ensures adds { Adds None None (called (start_asked (place_shown place.now)
            (command_shown command.now)) (started_of result)) }
        ensures counts { Counts result self.old.faults self.new.faults }
        ensures starts { StartsFor self.old.table (place_shown place.now)
            (command_shown command.now) result (S.started self.old.table.spawner)
            (S.started self.new.table.spawner) }
        ensures known { KnowsOneMore place.now.run (started_as self.old.table.way)
            self.old.table.started.items self.new.table.started.items }
        ensures kept { OnOk result (is_known_or_sought place.now.run
            self.new.table.started.items self.new.table.way ≡ true) }
        ensures sought { AddsAtMost (sought_for self.old.table (place_shown place.now)
            (command_shown command.now)) self.old.table.way self.new.table.way }
        ensures same { KeepsWay self.old.table self.new.table }
    {
        let answer = self.table.start(place, command);
        count(&mut self.faults, self.failure, &answer);
        answer
    }

    fn ask(&mut self, run: RunKey) -> io::Result<Option<i32>>
        ensures adds { Adds None None (called (end_asked run) (state_of result)) }
        ensures range { IfOk result (λ state. IfSome state IsInRange) }
        ensures ended { IfOk result (λ state. IfSome state
            (HasEndedWith S.Child.ended run self.new.table.started.items)) }
        ensures counts { Counts result self.old.faults self.new.faults }
        ensures starts { StartsFound self.old.table (find (is_of run)
            (sought_of self.old.table.way)) result (S.started self.old.table.spawner)
            (S.started self.new.table.spawner) }
        ensures none { find (is_of run) (sought_of self.old.table.way) ≡ None
            → self.new.table.spawner ≡ self.old.table.spawner }
        ensures sought { AddsNone self.old.table.way self.new.table.way }
        ensures same { KeepsWay self.old.table self.new.table }
    {
        let answer = self.table.ask(run);
        count(&mut self.faults, self.failure, &answer);
        answer
    }

    fn look(&mut self, number: usize) -> Option<RunKey>
        ensures failures { self.new.faults ≡ self.old.faults }
        ensures spawner { self.new.table.spawner ≡ self.old.table.spawner }
        ensures way { self.new.table.way ≡ self.old.table.way }
        ensures same { KeepsWay self.old.table self.new.table }
    {
        self.table.look(number)
    }

    fn kill(&mut self, run: RunKey) -> io::Result<bool>
        ensures adds { Adds None None (called (kill_asked run) (killed_of result)) }
        ensures counts { Counts result self.old.faults self.new.faults }
        ensures spawner { self.new.table.spawner ≡ self.old.table.spawner }
        ensures sought { AddsNone self.old.table.way self.new.table.way }
        ensures same { KeepsWay self.old.table self.new.table }
        ensures others { OthersStay run self.old.table.started.items
            self.new.table.started.items }
    {
        let answer = self.table.kill(run);
        count(&mut self.faults, self.failure, &answer);
        answer
    }

    fn length(&mut self, run: RunKey) -> io::Result<u64>
        ensures adds { Adds None None (called (length_asked run) (length_of result)) }
        ensures counts { Counts result self.old.faults self.new.faults }
        ensures spawner { self.new.table.spawner ≡ self.old.table.spawner }
        ensures way { self.new.table.way ≡ self.old.table.way }
        ensures same { KeepsWay self.old.table self.new.table }
        ensures others { OthersStay run self.old.table.started.items
            self.new.table.started.items }
    {
        let answer = self.table.length(run);
        count(&mut self.faults, self.failure, &answer);
        answer
    }

    fn read(&mut self, run: RunKey, stream: Stream, from: u64, most: u32) -> io::Result<Vec<u8>>
        ensures adds { Adds None None (called (read_asked run stream from most) (bytes_of result)) }
        ensures within { IfOk result (λ bytes. length bytes.items ≤ most) }
        ensures counts { Counts result self.old.faults self.new.faults }
        ensures spawner { self.new.table.spawner ≡ self.old.table.spawner }
        ensures way { self.new.table.way ≡ self.old.table.way }
        ensures same { KeepsWay self.old.table self.new.table }
        ensures started { self.new.table.started ≡ self.old.table.started }
    {
        let answer = self.table.read(run, stream, from, most);
        count(&mut self.faults, self.failure, &answer);
        answer
    }

    fn forget(&mut self, run: RunKey)
        ensures adds { Adds None None (called (forget_asked run) (Ok program_done)) }
        ensures counts { self.new.faults ≡ self.old.faults }
        ensures spawner { self.new.table.spawner ≡ self.old.table.spawner }
        ensures sought { AddsNone self.old.table.way self.new.table.way }
        ensures same { KeepsWay self.old.table self.new.table }
        ensures others { OthersStay run self.old.table.started.items
            self.new.table.started.items }
    {
        self.table.forget(run);
    }

    fn last_words(&self, run: RunKey, most: u32) -> io::Result<Vec<u8>> {
        self.table.last_words(run, most)
    }

    fn faults(&self) -> u64 {
        self.faults
    }
}
