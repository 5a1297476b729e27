//! `remoted serve`.

ghost use Rattle.std.specs.Prelude.{◌≡◌, map, is_some, IfOk, IfSome, string_bytes};
ghost use Rattle.std.specs.Net.Socket.{socket_port};
ghost use Rattle.server_events.specs.LimitsShown.{limits_value};
ghost use Rattle.operator_lines.specs.Words.{AreWordsOf};
ghost use Rattle.host_sockets.specs.Ports.{ListensAt, addresses};
ghost use Rattle.remoted.specs.Launching.{KnowsInstances};

use crate::beginning::{
    HostFolder, HostWork, begin, can_open, can_run, can_write, guard_against_leases, has_folder,
    keep_freed_memory,
};
use crate::clock::milliseconds_since;
use crate::ending::EndFile;
use crate::exit::{DONE, Exit, FAILED};
use crate::needs::{is_lacking, said_by};
use crate::operator::{Counters, Counts, Operator};
use crate::sessions::HostSessions;
use crate::standard_error::StandardError;
use crate::watching::{MetricsFile, StopFile};
use command_line::Service;
use host_sockets::{HostSockets, ListenError};
use host_system::{HostShells, HostSpawner, HostSystem};
use host_wires::{ThisHost, TurnClock};
use job_runs::{JobRunner, OperatedRuns};
use keyed_maps::MapKey;
use made_trees::InstanceTrees;
use operator_lines::{
    Instances, Options, binds_trees, can_bind, instances_of, is_memory, leaves_no_process,
    options_of, slots_of, tell_end, tell_lacking, tell_no_launcher, tell_refused_words, tell_taken,
    told,
};
use run_programs::{Launcher, RunPrograms, launcher_path};
use serve::{Beginning, ErrorLines, Sockets, serve};
use server_events::Configs;
use std::alloc::AllocError;
use std::io::{self, Write};
use std::net::IpAddr;
use std::random::RandomSource;
use std::rc::Rc;
use std::time::{Duration, Instant};
use std::{fs, thread};
use work_folders::{Links, Work, WorkFolder};

/// For how many milliseconds it is tried, once each, to end what runs, before the program ends. A
/// launcher that is told to end may take ten seconds.
const MOST_ENDING: u64 = 15_000;

/// What runs actions on this host.
type Runner<'a> = OperatedRuns<'a, HostFolder<'a>, HostPrograms<'a>>;

/// The programs of this host.
type HostPrograms<'a> = RunPrograms<'a, HostSystem<'a>, HostSpawner<'a>, HostSessions<'a>>;

/// Sockets that listen on these ports of an address, for the instances in order. Where there is no
/// listening on one, that is told, and there are none.
fn listen<'a, E: Write>(
    rt: &'a HostRuntime,
    host: ThisHost<'a>,
    ip: IpAddr,
    ports: &[u16],
    errors: &mut E,
) -> io::Result<Option<HostSockets<'a, ThisHost<'a>>>>
    ensures { IfOk result (λ found. IfSome found (ListensAt ip ports.now)) }
{
    match HostSockets::listen(host, rt.alloc(), ip, ports) {
        Ok(sockets) => Ok(Some(sockets)),
        Err(ListenError::Port(address, error)) if !is_memory(&error) => {
            tell_taken(address, &error, errors)?;
            Ok(None)
        }
        Err(ListenError::Host(error) | ListenError::Port(_, error)) => Err(error),
    }
}

/// Prints which instance is served on which port.
fn announce<O: Write>(
    configs: &Configs,
    sockets: &HostSockets<'_, ThisHost<'_>>,
    output: &mut O,
) -> io::Result<()> {
    for (number, config) in configs.instances().iter().enumerate() {
        if let Some(address) = sockets.address(number as u32) {
            let (name, port) = (&config.name, address.port());
            writeln!(output, "listening {name} {port}")?;
        }
    }
    output.flush()
}

/// What starts programs, with the instances' names; where it is no program, that is told, and there
/// is no answer.
fn launcher_of<E: Write>(
    rt: &HostRuntime,
    service: &Service<'_>,
    instances: &Instances,
    errors: &mut E,
) -> io::Result<Option<Option<Launcher>>>
    ensures asked { IfOk result (λ found. IfSome found (λ launcher.
        is_some launcher ≡ is_some service.now.launcher)) }
    ensures knows { IfOk result (λ found. IfSome found (λ launcher.
        IfSome launcher (KnowsInstances instances.now.configs))) }
{
    let Some(program) = service.launcher else {
        return Ok(Some(None));
    };
    match launcher_path(&HostSystem::new(rt), program) {
        Ok(path) => {
            let (launcher, text) = (path.as_str(), said_by(rt, path.as_str()));
            let lacks = |name: &str| is_lacking(rt, launcher, name);
            told(tell_lacking(launcher, &text, lacks, errors))?;
            if !can_bind(service.made_trees, launcher, binds_trees(&text), errors)? {
                return Ok(None);
            }
            Ok(Some(Some(Launcher::new(path, names_of(rt, &instances.configs)?))))
        }
        Err(error) if is_memory(&error) => Err(error),
        Err(error) => {
            tell_no_launcher(program, error.kind(), errors)?;
            Ok(None)
        }
    }
}

fn names_of(rt: &HostRuntime, configs: &Configs) -> io::Result<Vec<String>>
    ensures { IfOk result (λ names. map string_bytes names.items
        ≡ map (λ config. config.name) configs.now) }
{
    let mut names = Vec::new(rt.alloc());
    let instances = configs.instances();
    'instances: for config in instances {
        names.push(String::from_str(rt.alloc(), config.name.as_str())?)?;
    }
    Ok(names)
}

/// A place for the runs of these instances. None where none of them runs any; where it cannot be
/// had, that is told, and there is no answer.
fn place_of<'a, E: Write>(
    rt: &'a HostRuntime,
    service: &Service<'_>,
    instances: &Instances,
    errors: &mut E,
) -> io::Result<Option<HostWork<'a>>> {
    if slots_of(instances) == 0 {
        let work = Work::nowhere(rt.alloc());
        return Ok(Some(HostWork { work }));
    }
    if !can_run(rt, errors)? {
        return Ok(None);
    }
    begin(rt, service.work, errors)
}

/// What becomes of symbolic links in output directories.
fn links_of(options: Options) -> Links {
    if options.links_fail {
        Links::Fail
    } else {
        Links::LeftOut
    }
}

/// Runs in this place, of the jobs of these instances.
#[tactic(auto, using(work_folders::proofs::Nowhere::may_runs))]
fn job_runner<'a, E: Write>(
    rt: &'a HostRuntime,
    work: HostWork<'a>,
    made: (Links, InstanceTrees<'a>),
    counts: &'a Counts,
    launcher: Option<Launcher>,
    instances: &Instances,
    errors: &mut E,
) -> io::Result<Runner<'a>>
    requires launcher { IfSome launcher (KnowsInstances instances.now.configs) }
{
    let path = String::from_str(rt.alloc(), work.work.path())?;
    let ((links, trees), folders) = (made, &counts.folders);
    let oversight = &counts.oversight;
    let (failure, failed_at) = (&oversight.failure, &oversight.failed_at);
    let (shells, work) = (HostShells::new(rt), work.inner());
    let mut folder = WorkFolder::new(shells, work, links, trees, folders, failure, failed_at);
    let leaves_nothing =
        matches!(&launcher, Some(given) if leaves_no_process(&said_by(rt, given.path())));
    if slots_of(instances) > 0 && !leaves_nothing {
        if let Err(error) = guard_against_leases(rt, &mut folder, errors) {
            drop(folder);
            return Err(error);
        }
    }
    let (host, spawner) = (HostSystem::new(rt), HostSpawner::new(rt));
    let sessions = HostSessions::new(rt, leaves_nothing);
    let programs = RunPrograms::new(host, sessions, spawner, path, launcher, failure);
    let runs = JobRunner::new(rt.alloc(), folder, programs, slots_of(instances))?;
    Ok(OperatedRuns::new(rt.alloc(), runs, oversight))
}

/// Closes all ports and connections. Then ends what runs, and removes its folders. One that is left
/// is a line.
fn end_runs(
    rt: &HostRuntime,
    configs: &Configs,
    mut sockets: HostSockets<'_, ThisHost<'_>>,
    runs: &mut Runner<'_>,
    lines: &mut ErrorLines<StandardError>,
) {
    let (began, end) = (Instant::now(rt).ok(), sockets.now());
    drop(sockets);
    let last = end.saturating_add(MOST_ENDING);
    for _ in 0..MOST_ENDING {
        let now = end.saturating_add(milliseconds_since(rt, began));
        if runs.end_all(configs, now, lines) == 0 || now >= last {
            return;
        }
        thread::sleep(rt, Duration::from_millis(1));
    }
}

/// What the operator is told, and how the turns end but for their number.
fn operator_of<'a>(
    rt: &'a HostRuntime,
    configs: &'a Configs,
    counters: Counters<'a>,
    service: &Service<'a>,
) -> Result<Operator<'a>, AllocError> {
    let metrics = match service.metrics {
        Some(path) => Some(MetricsFile::new(rt, path)?),
        None => None,
    };
    let stop = match service.stop {
        Some(path) => Some(StopFile::new(rt, path)),
        None => None,
    };
    let end = match service.end {
        Some(path) => Some(EndFile::new(rt, path, configs, &counters.counts.oversight.ended)),
        None => None,
    };
    Operator::new(rt, configs, counters, metrics, stop, end)
}

/// Removes the folder of this start where runs were, unless something is left in it: the next start
/// does that then.
fn remove_start(rt: &HostRuntime, path: &str) {
    if !path.is_empty() {
        let _ = fs::remove_dir(rt, path);
    }
}

/// A key that nobody knows, drawn once.
fn map_key(rt: &HostRuntime) -> io::Result<MapKey> {
    let mut bytes = [0; 16];
    rt.fill_bytes(&mut bytes)?;
    Ok(MapKey::new(bytes))
}

/// Serves for so many turns, each instance at its port, and then ends what runs. Lines about runs
/// go to standard error, of which none is waited for; so does the last, which says how many events
/// were cut short, if any were.
fn serve_turns(
    rt: &HostRuntime,
    key: MapKey,
    instances: &Instances,
    mut sockets: HostSockets<'_, ThisHost<'_>>,
    runs: &mut Runner<'_>,
    counters: Counters<'_>,
    service: &Service<'_>,
) -> Result<(), AllocError>
    requires ports { map socket_port (addresses sockets) ≡ instances.now.ports.items }
{
    let (alloc, configs) = (rt.alloc(), &instances.configs);
    let count = configs.instances().len();
    let mut lines = ErrorLines::new(alloc, StandardError::new(rt), count)?;
    let mut operator = operator_of(rt, configs, counters, service)?;
    operator.tell_start(&sockets, service);
    let served = serve(
        alloc,
        Beginning {
            key,
            turns: service.turns,
        },
        configs,
        &mut sockets,
        runs,
        &mut lines,
        &mut operator,
    );
    end_runs(rt, configs, sockets, runs, &mut lines);
    operator.tell_end(service);
    let told = tell_end(alloc, served, &mut lines);
    lines.output.end();
    told
}

/// Whether the file that ends the server is there before it begins, which is told.
fn is_stopped<E: Write>(
    rt: &HostRuntime,
    service: &Service<'_>,
    errors: &mut E,
) -> io::Result<bool> {
    let Some(path) = service.stop else {
        return Ok(false);
    };
    if !StopFile::new(rt, path).is_there()? {
        return Ok(false);
    }
    writeln!(errors, "remoted: {path} is there already: remove it")?;
    Ok(true)
}

/// Whether the host has what serving these instances needs; what it lacks is told.
fn is_ready<E: Write>(
    rt: &HostRuntime,
    service: &Service<'_>,
    instances: &Instances,
    errors: &mut E,
) -> io::Result<bool> {
    Ok(
        can_write(rt, errors)?
            && can_open(instances, errors)?
            && !is_stopped(rt, service, errors)?
            && has_folder(rt, "--stop", service.stop, errors)?
            && has_folder(rt, "--end", service.end, errors)?,
    )
}

/// Serves these instances as the options say. What happens beside the server is counted there.
fn serve_instances<'a, O: Write, E: Write>(
    rt: &'a HostRuntime,
    service: &Service<'_>,
    options: Options,
    instances: &Instances,
    counts: &'a Counts,
    output: &mut O,
    errors: &mut E,
) -> io::Result<Exit>
    requires words { AreWordsOf (limits_value service.now.limits)
        (map (λ word. word.now) service.now.instances.items)
        instances.now.ports.items instances.now.configs }
{
    let Some(launcher) = launcher_of(rt, service, instances, errors)? else {
        return Ok(FAILED);
    };
    if !is_ready(rt, service, instances, errors)? {
        return Ok(FAILED);
    }
    let key = map_key(rt)?;
    let turns = Rc::new(rt.alloc(), TurnClock::new())?;
    let host = ThisHost::with_clock(rt, turns.clone()?)?;
    let Some(mut sockets) = listen(rt, host, options.address, &instances.ports, errors)? else {
        return Ok(FAILED);
    };
    sockets.count_in(&counts.sockets);
    let Some(work) = place_of(rt, service, instances, errors)? else {
        return Ok(FAILED);
    };
    let start = String::from_str(rt.alloc(), work.work.path())?;
    let (count, most) = (instances.ports.len(), service.made_trees);
    let trees = InstanceTrees::new(rt.alloc(), key, most, &counts.trees, count)?;
    let made = (links_of(options), trees);
    let mut runs = job_runner(rt, work, made, counts, launcher, instances, errors)?;
    told(announce(&instances.configs, &sockets, output))?;
    let counters = Counters {
        counts,
        turns: turns.as_ref(),
    };
    let ended = serve_turns(rt, key, instances, sockets, &mut runs, counters, service);
    remove_start(rt, start.as_str());
    ended?;
    Ok(DONE)
}

/// Serves instances on ports of this host, and says how the program ends. An error is one of the
/// streams, or want of memory.
pub fn serve_ports<O: Write, E: Write>(
    rt: &HostRuntime,
    service: &Service<'_>,
    output: &mut O,
    errors: &mut E,
) -> io::Result<Exit> {
    let Some(options) = options_of(service, errors)? else {
        return Ok(Exit::BadWords);
    };
    keep_freed_memory(rt.alloc());
    match instances_of(rt.alloc(), service.limits, &service.instances) {
        Ok(instances) => {
            let counts = Counts::new(rt.alloc(), &instances.configs)?;
            serve_instances(rt, service, options, &instances, &counts, output, errors)
        }
        Err(fault) => {
            tell_refused_words(&service.instances, fault, errors)?;
            Ok(Exit::BadWords)
        }
    }
}
