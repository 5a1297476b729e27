//! Runs of a server whose instances order none.

ghost use Rattle.std.specs.Prelude.{◌≡◌, [], Some, IfOk, IfSome};
ghost use Rattle.logs.specs.LoggedSockets.{logged};
ghost use Rattle.serve.specs.Served.{WasServed};

use keyed_maps::MapKey;
use logs::LoggedSockets;
use run_calls::{Outcome, RunKey};
use runner::RunFault;
use serve::{Beginning, Doing, ErrorLines, Nobody, Runs, Sockets, Tally, serve};
use server_core::LentTask;
use server_events::Configs;
use std::alloc::{AllocError, Global};
use std::io::{self, ErrorKind};
use tool_programs::{Fault, Output};

/// No runs. Where one is ordered or asked, that is noted.
#[derive(Drop)]
struct NoRuns {
    is_used: bool,
}

impl Runs for NoRuns {
    ghost use Rattle.std.specs.Prelude.{[], Some, None, if◌then◌else◌};

    ghost happened = { λ runs. if runs.is_used then None else Some [] };

    fn start(&mut self, _run: RunKey, _task: LentTask<'_>) {
        self.is_used = true;
    }

    fn kill(&mut self, _run: RunKey) {
        self.is_used = true;
    }

    fn count(&self) -> usize {
        0
    }

    fn next(&mut self) -> Option<RunKey> {
        None
    }

    fn next_doing(&self) -> Doing {
        Doing::Goes
    }

    fn pass(&mut self) -> usize {
        0
    }

    fn look(&mut self, _number: usize) -> Option<RunKey> {
        None
    }

    fn ask(
        &mut self,
        _run: RunKey,
        _task: Option<LentTask<'_>>,
    ) -> Result<Option<Outcome>, RunFault> {
        self.is_used = true;
        Ok(None)
    }

    fn reason(
        &self,
        _run: RunKey,
        _task: Option<LentTask<'_>>,
        _fault: RunFault,
        _most: u32,
    ) -> io::Result<Vec<u8>> {
        Err(io::Error::from(ErrorKind::NotFound))
    }

    fn is_busy(&self) -> bool {
        false
    }
}

/// Serves instances without slots over sockets for so many turns, over no runs, and says what came
/// of it: what the log says is what a server does, with as many events cut short as it says. There
/// is no answer where a run was ordered or something written to the errors.
fn serve_over<S: Sockets>(
    alloc: Global,
    configs: &Configs,
    sockets: &mut LoggedSockets<S>,
    turns: u64,
) -> Result<Option<Tally>, AllocError>
    requires fresh { logged sockets.old.log ≡ Some [] }
    ensures served { IfOk result (λ answer. IfSome answer (λ tally. WasServed configs.now
        (logged sockets.new.log) (Some []) tally.cut)) }
{
    let mut runs = NoRuns { is_used: false };
    let instances = configs.instances().len();
    let mut errors = ErrorLines::new(alloc, Vec::new(alloc), instances)?;
    let tally = serve(
        alloc,
        Beginning {
            key: MapKey::known(),
            turns,
        },
        configs,
        sockets,
        &mut runs,
        &mut errors,
        &mut Nobody,
    )?;
    if runs.is_used || !errors.output.is_empty() {
        return Ok(None);
    }
    Ok(Some(tally))
}

/// Serves instances without slots over sockets for so many turns: nothing is to be run, nothing
/// told, and no memory refused. All that happens at the sockets is in their log.
pub fn serve_alone<S: Sockets>(
    configs: &Configs,
    sockets: &mut LoggedSockets<S>,
    turns: u64,
    output: &mut Output,
)
    requires fresh { logged sockets.old.log ≡ Some [] }
{
    match serve_over(output.alloc, configs, sockets, turns) {
        Ok(Some(Tally { cut: 0 })) if sockets.log.is_some() => {}
        Ok(None) => output.fail(Fault::InputOrOutput),
        Ok(Some(_)) | Err(_) => output.fail(Fault::OutOfMemory),
    }
}
