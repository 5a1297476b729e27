//! How the programs of a server are started.

ghost use Rattle.std.specs.Prelude.{◌≡◌, ◌<◌, ◌≤◌, [], ◌∷◌, ◌++◌, None, IfOk, IfSome, OnErr, OnOk, find, length, option_map, position};
ghost use Rattle.run_programs.specs.Ways.{AddsNone, is_of, launcher_of, sought_of, sought_shown};

use crate::launching::Launcher;
use crate::sought::Sought;
use run_calls::RunKey;
use std::alloc::{AllocError, Global};
use std::io;
use system::Host;

/// How programs are started.
#[derive(Drop)]
pub(crate) enum Way {
    /// Each by a launcher. None is looked for.
    By(Launcher),
    /// As they are. These are still looked for.
    AsTheyAre(Vec<Sought>),
}

/// Which of these is that of a run.
fn place_of(sought: &[Sought], run: RunKey) -> Option<usize>
    ensures place { result ≡ position (λ s. is_of run (sought_shown s)) sought.now }
    ensures within { IfSome result (λ at. at < length sought.now) }
{
    sought.iter().position(|each| each.is_of(run))
}

impl Way {
    /// By a launcher, where there is one. Nothing is looked for yet.
    pub(crate) fn new(alloc: Global, launcher: Option<Launcher>) -> Way
        ensures launcher { launcher_of result ≡ launcher }
        ensures sought { sought_of result ≡ [] }
    {
        match launcher {
            Some(launcher) => Way::By(launcher),
            None => Way::AsTheyAre(Vec::new(alloc)),
        }
    }

    /// Adds a program that is to be looked for.
    pub(crate) fn add(&mut self, sought: Sought) -> Result<(), AllocError>
        requires { launcher_of self.old ≡ None }
        ensures added { OnOk result (sought_of self.new
            ≡ sought_of self.old ++ (sought_shown sought ∷ [])) }
        ensures none { OnErr result (sought_of self.new ≡ sought_of self.old) }
        ensures launcher { launcher_of self.new ≡ launcher_of self.old }
    {
        match self {
            Way::AsTheyAre(others) => {
                others.push(sought)?;
                Ok(())
            }
            Way::By(_) => unreachable!(),
        }
    }

    /// Why a launcher cannot be started any more, in at most so many bytes; nothing where it can, or
    /// where there is none.
    pub(crate) fn absence<H: Host>(&self, host: &H, most: u32) -> io::Result<Vec<u8>>
        ensures { IfOk result (λ bytes. length bytes.items ≤ most) }
    {
        match self {
            Way::By(launcher) => {
                let mut words = launcher.absence(host)?;
                words.truncate(most as usize);
                Ok(words)
            }
            Way::AsTheyAre(_) => Ok(Vec::new(host.alloc())),
        }
    }

    /// How many are still looked for.
    pub(crate) fn sought_count(&self) -> usize {
        match self {
            Way::By(_) => 0,
            Way::AsTheyAre(sought) => sought.len(),
        }
    }

    /// The run of the one at this place that is still looked for.
    pub(crate) fn sought_at(&self, at: usize) -> Option<RunKey> {
        match self {
            Way::By(_) => None,
            Way::AsTheyAre(sought) => {
                let sought = sought.get(at)?;
                Some(sought.run())
            }
        }
    }

    /// Takes out the program of a run that is still looked for.
    pub(crate) fn take(&mut self, run: RunKey) -> Option<Sought>
        ensures own { IfSome result (λ sought. launcher_of self.old ≡ None) }
        ensures taken { option_map sought_shown result ≡ find (is_of run) (sought_of self.old) }
        ensures left { AddsNone self.old self.new }
        ensures launcher { launcher_of self.new ≡ launcher_of self.old }
    {
        match self {
            Way::By(_) => None,
            Way::AsTheyAre(sought) => {
                let at = place_of(sought, run)?;
                Some(sought.remove(at))
            }
        }
    }
}
