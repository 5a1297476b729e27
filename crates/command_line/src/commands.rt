//! The commands, with what each takes and what its help says.

ghost use Rattle.std.specs.Prelude.{◌≡◌, IfOk, codes};
ghost use Rattle.clap.specs.Words.{App, Shape, app_of, new_app, with_subcommand};
ghost use Rattle.command_line.specs.CommandLine.{command_line, with_limits, with_ways, script_command, probe_command, check_command, serve_command};
ghost use Rattle.command_line.specs.Shown.{HasApp, HasShape, IsLocal};

use crate::VERSION;
use crate::arguments::{
    asked_port, blobs, end, figures, file, host, instance, instances, lasting, launcher, links,
    listen, made_trees, metrics, port, result_bytes, results, seconds, send, stop, turns, want,
    window, work,
};
use crate::help_texts::{
    ABOUT, AFTER, CHECK_ABOUT, CHECK_AFTER, PROBE_ABOUT, PROBE_AFTER, REPLAY_ABOUT, REPLAY_AFTER,
    REPLAY_LINES, SERVE_ABOUT, SERVE_AFTER, UNARY_ABOUT, UNARY_AFTER, UNARY_LINES,
};
use clap::Command;
use std::alloc::{AllocError, Global};

/// A command that has no arguments yet, with what its help begins and ends with.
fn described<'a>(alloc: Global, name: &'a str, about: &'a str, after: &'a str) -> Command<'a>
    ensures { HasApp (new_app name.entry.now) result }
{
    Command::new(alloc, name).about(about).after_help(after)
}

/// A command with the options for the numbers of all instances.
fn with_limits<'a>(alloc: Global, command: Command<'a>) -> Result<Command<'a>, AllocError>
    requires { IsLocal command }
    ensures { IfOk result (HasApp (with_limits (app_of command.entry))) }
{
    let args = vec![in alloc;
        blobs(alloc),
        results(alloc),
        result_bytes(alloc),
        window(alloc),
    ];
    match args {
        Ok(args) => command.args(args),
        Err(refused) => {
            drop(command);
            Err(refused.into())
        }
    }
}

/// A command that carries out the script of a file.
fn script_command<'a>(
    alloc: Global,
    name: &'a str,
    about: &'a str,
    lines: &'a str,
    after: &'a str,
) -> Result<Command<'a>, AllocError>
    ensures { IfOk result (HasShape (script_command name.entry.now)) }
{
    let command = with_limits(alloc, described(alloc, name, about, after))?;
    command.arg(file(alloc, lines))
}

fn unary<'a>(alloc: Global) -> Result<Command<'a>, AllocError>
    ensures { IfOk result (HasShape (script_command (codes "unary"))) }
{
    script_command(alloc, "unary", UNARY_ABOUT, UNARY_LINES, UNARY_AFTER)
}

fn replay<'a>(alloc: Global) -> Result<Command<'a>, AllocError>
    ensures { IfOk result (HasShape (script_command (codes "replay"))) }
{
    script_command(alloc, "replay", REPLAY_ABOUT, REPLAY_LINES, REPLAY_AFTER)
}

fn probe<'a>(alloc: Global) -> Result<Command<'a>, AllocError>
    ensures { IfOk result (HasShape probe_command) }
{
    let args = vec![in alloc; port(alloc), send(alloc), want(alloc), turns(alloc)]?;
    described(alloc, "probe", PROBE_ABOUT, PROBE_AFTER).args(args)
}

fn check<'a>(alloc: Global) -> Result<Command<'a>, AllocError>
    ensures { IfOk result (HasShape check_command) }
{
    let args = vec![in alloc;
        asked_port(alloc),
        host(alloc),
        instance(alloc),
        seconds(alloc),
        figures(alloc),
    ]?;
    described(alloc, "check", CHECK_ABOUT, CHECK_AFTER).args(args)
}

/// A command with the options for where and how long is served, and for what runs and watches.
fn with_ways<'a>(alloc: Global, command: Command<'a>) -> Result<Command<'a>, AllocError>
    requires { IsLocal command }
    ensures { IfOk result (HasApp (with_ways (app_of command.entry))) }
{
    let args = vec![in alloc;
        work(alloc),
        launcher(alloc),
        made_trees(alloc),
        lasting(alloc),
        listen(alloc),
        metrics(alloc),
        stop(alloc),
        end(alloc),
        links(alloc),
    ];
    match args {
        Ok(args) => command.args(args),
        Err(refused) => {
            drop(command);
            Err(refused.into())
        }
    }
}

fn serve<'a>(alloc: Global) -> Result<Command<'a>, AllocError>
    ensures { IfOk result (HasShape serve_command) }
{
    let described = described(alloc, "serve", SERVE_ABOUT, SERVE_AFTER);
    let command = with_limits(alloc, with_ways(alloc, described)?)?;
    command.arg(instances(alloc))
}

/// The command with one more below it, where both were made.
fn with_command<'a>(
    command: Result<Command<'a>, AllocError>,
    made: Result<Command<'a>, AllocError>,
) -> Result<Command<'a>, AllocError>
    ensures { (app : App) → (shape : Shape) → IfOk command.entry (λ c. app_of c ≡ app)
        → IfOk made.entry (HasShape shape)
        → IfOk result (λ c. app_of c ≡ with_subcommand app shape) }
{
    // A `drop` is one call, where a `?` that lets a command go has one for each part of it.
    match command {
        Ok(command) => match made {
            Ok(made) => command.subcommand(made),
            Err(refused) => {
                drop(command);
                Err(refused)
            }
        },
        Err(refused) => {
            drop(made);
            Err(refused)
        }
    }
}

/// A command by itself, with the program's name before its own, as its users write it.
pub(crate) fn lone_command<'a>(alloc: Global, name: &str) -> Result<Command<'a>, AllocError> {
    let (command, whole) = match name {
        "probe" => (probe(alloc)?, "remoted probe"),
        "check" => (check(alloc)?, "remoted check"),
        "serve" => (serve(alloc)?, "remoted serve"),
        "replay" => (replay(alloc)?, "remoted replay"),
        _ => (unary(alloc)?, "remoted unary"),
    };
    command.bin_name(whole)
}

/// The program's command line.
pub(crate) fn command<'a>(alloc: Global) -> Result<Command<'a>, AllocError>
    ensures { IfOk result (λ c. app_of c ≡ command_line) }
{
    let command = described(alloc, "remoted", ABOUT, AFTER).version(VERSION);
    let command = with_command(Ok(command), unary(alloc));
    let command = with_command(command, replay(alloc));
    let command = with_command(command, probe(alloc));
    let command = with_command(command, check(alloc));
    with_command(command, serve(alloc))
}
