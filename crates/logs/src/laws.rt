//! What follows for whoever serves over logs.

ghost use Rattle.std.specs.Prelude.{◌≡◌, ℕ, List, Some, IfSome};
ghost use Rattle.run_calls.specs.Calls.{FolderCall, ProgramCall};
ghost use Rattle.server_events.specs.Configs.{ConfigValue};
ghost use Rattle.serve.specs.RunEvents.{RunEvent};
ghost use Rattle.serve.specs.SocketEvents.{SocketEvent};
ghost use Rattle.serve.specs.Served.{WasServed};
ghost use Rattle.host_sockets.specs.Laid.{AreLaid};
ghost use Rattle.job_runs.specs.Clock.{NeverFalls};
ghost use Rattle.job_runs.specs.Ran.{AreOfJobs, HasRun};
ghost use Rattle.logs.specs.LoggedRuns.{runs_logged};
ghost use Rattle.logs.specs.LoggedSockets.{logged};

use crate::logged_runs::LoggedRuns;
use crate::logged_sockets::LoggedSockets;
use host_sockets::HostSockets;
use job_runs::OperatedRuns;
use run_calls::{Folder, Programs};
use wires::Host;

/// What a log of sockets says of each open connection is just what happened on it, where that is
/// known. `serve` takes such sockets as any others, and says what their log is.
pub fn what_is_laid<H: Host>(sockets: &LoggedSockets<HostSockets<'_, H>>)
    ensures { IfSome (logged sockets.now.log)
        (AreLaid H.Door.Wire.happened sockets.now.sockets.ports.items) }
{}

/// What ran is what that instance ordered. Whatever the runs were told, and whatever was asked of
/// folders and programs for them, these are parts of one list, in which each is right behind those
/// before. For each job of an instance, from the order to start it until it is over: all that is
/// made stands in the folder of its run, and is the tree of its task, or a front of it; of a
/// directory of that tree that was made before, nothing is made but that directory, by its digest.
/// Its program is started there, once at most, and is the command of its task; and what the server
/// is told is what these folders and programs answered for it, or that it failed, as a fault, a
/// rule of outputs or an operator ended it. Without such an order nothing is made and nothing
/// started, and nothing is told.
pub fn what_ran<F: Folder + Drop, P: Programs + Drop>(runs: &LoggedRuns<OperatedRuns<'_, F, P>>)
    ensures { (h : List RunEvent) (f : List FolderCall) (p : List ProgramCall)
        → runs_logged runs.now.log ≡ Some h
        → F.asked runs.now.runs.runs.runner.folder ≡ Some f
        → P.asked runs.now.runs.runs.runner.programs ≡ Some p → AreOfJobs h
        → ∥ HasRun h f p ∥₁ }
{}

/// What ran is what that instance ordered, whatever a server did: by what `serve` promises of what
/// happened, and as the clock never goes back, which each reading of it promises (`rises`).
pub fn what_ran_was_ordered<F: Folder + Drop, P: Programs + Drop>(
    runs: &LoggedRuns<OperatedRuns<'_, F, P>>,
)
    ensures { (configs : List ConfigValue) (s : List SocketEvent) (h : List RunEvent) (cut : ℕ)
        (f : List FolderCall) (p : List ProgramCall)
        → WasServed configs (Some s) (Some h) cut → NeverFalls 0 s
        → runs_logged runs.now.log ≡ Some h
        → F.asked runs.now.runs.runs.runner.folder ≡ Some f
        → P.asked runs.now.runs.runs.runner.programs ≡ Some p
        → ∥ HasRun h f p ∥₁ }
{}
