//! The arguments of the commands.

ghost use Rattle.std.specs.Prelude.{◌≡◌, Some, true};
ghost use Rattle.clap.specs.Words.{new_rule};
ghost use Rattle.command_line.specs.CommandLine.{file_rule, long_option, count_parser, port_rule, asked_port_rule, optional, send_rule, want_rule, turns_rule, lasting_rule, launcher_rule, made_trees_rule, listen_rule, blobs_rule, results_rule, result_bytes_rule, window_rule, metrics_rule, stop_rule, end_rule, links_rule, host_rule, instance_rule, seconds_rule, work_rule, instances_rule};
ghost use Rattle.command_line.specs.Shown.{HasRule};

use clap::builder::ValueParser;
use clap::{Arg, ArgAction, value_parser};
use std::alloc::Global;

/// The name of the words for instances.
pub(crate) const INSTANCES: &str = "NAME:PORT:QUOTA:SLOTS[:PARENT]";

/// An argument that has to be given, and goes by its place.
fn positional<'a>(alloc: Global, name: &'a str, help: &'a str, action: ArgAction) -> Arg<'a>
    ensures { HasRule (record (new_rule name.entry.now)
        { required = true; action = Some action }) result }
{
    Arg::new(alloc, name)
        .help(help)
        .required(true)
        .action(action)
}

pub(crate) fn file<'a>(alloc: Global, lines: &'a str) -> Arg<'a>
    ensures { HasRule file_rule result }
{
    positional(alloc, "FILE", lines, ArgAction::Set)
}

pub(crate) fn instances<'a>(alloc: Global) -> Arg<'a>
    ensures { HasRule instances_rule result }
{
    let help =
        "An instance: name, port, quota in bytes, most actions at once, and perhaps its parent";
    positional(alloc, INSTANCES, help, ArgAction::Append)
}

/// An option `--NAME VALUE`.
fn long_option<'a>(
    alloc: Global,
    name: &'a str,
    value: &'a str,
    help: &'a str,
    required: bool,
) -> Arg<'a>
    ensures { HasRule (record (long_option name.entry.now) { required = required }) result }
{
    Arg::new(alloc, name)
        .long(name)
        .value_name(value)
        .help(help)
        .required(required)
        .action(ArgAction::Set)
}

/// An option `--NAME VALUE` that may be left out.
fn optional<'a>(alloc: Global, name: &'a str, value: &'a str, help: &'a str) -> Arg<'a>
    ensures { HasRule (optional name.entry.now) result }
{
    long_option(alloc, name, value, help, false).value_parser(ValueParser::NonEmptyString)
}

pub(crate) fn send<'a>(alloc: Global) -> Arg<'a>
    ensures { HasRule send_rule result }
{
    long_option(alloc, "send", "FILE", "The file whose bytes are sent", true)
}

pub(crate) fn work<'a>(alloc: Global) -> Arg<'a>
    ensures { HasRule work_rule result }
{
    let help = "The folder for the work of actions; it is made if it is not there";
    long_option(alloc, "work", "DIR", help, true)
}

pub(crate) fn launcher<'a>(alloc: Global) -> Arg<'a>
    ensures { HasRule launcher_rule result }
{
    let help = "The program that starts the program of each action, as in a sandbox or elsewhere";
    long_option(alloc, "launcher", "PROGRAM", help, false)
}

/// The most bytes of made trees.
pub(crate) fn made_trees<'a>(alloc: Global) -> Arg<'a>
    ensures { HasRule made_trees_rule result }
{
    let help = "How many bytes of large input directories each instance keeps on the disk, as 20G, \
                for actions that share them; with 0 none. The launcher binds them";
    long_option(alloc, "made-trees", "SIZE", help, false).default_value("0")
}

pub(crate) fn listen<'a>(alloc: Global) -> Arg<'a>
    ensures { HasRule listen_rule result }
{
    let help =
        "The address to listen on, IPv4 or IPv6. Whoever can reach a port there has all of its \
                instance: may read every blob, store results and, with slots, run programs";
    long_option(alloc, "listen", "ADDRESS", help, false).default_value("127.0.0.1")
}

pub(crate) fn metrics<'a>(alloc: Global) -> Arg<'a>
    ensures { HasRule metrics_rule result }
{
    let help =
        "The file to which the server's figures are written every 10 seconds, for Prometheus";
    optional(alloc, "metrics", "FILE", help)
}

pub(crate) fn stop<'a>(alloc: Global) -> Arg<'a>
    ensures { HasRule stop_rule result }
{
    let help = "The file that ends the server once it is there; it must not be there at the start";
    optional(alloc, "stop", "FILE", help)
}

pub(crate) fn end<'a>(alloc: Global) -> Arg<'a>
    ensures { HasRule end_rule result }
{
    let help =
        "The file whose lines end jobs, NAME, NAME HASH or NAME abandoned; it is read and removed";
    optional(alloc, "end", "FILE", help)
}

pub(crate) fn links<'a>(alloc: Global) -> Arg<'a>
    ensures { HasRule links_rule result }
{
    let help =
        "What becomes of symbolic links in output directories: leave-out, or fail to have the \
                action fail; leave-out if not given";
    optional(alloc, "links", "HOW", help)
}

pub(crate) fn host<'a>(alloc: Global) -> Arg<'a>
    ensures { HasRule host_rule result }
{
    let help = "The address of the server, IPv4 or IPv6";
    long_option(alloc, "host", "ADDRESS", help, false).default_value("127.0.0.1")
}

pub(crate) fn instance<'a>(alloc: Global) -> Arg<'a>
    ensures { HasRule instance_rule result }
{
    optional(
        alloc,
        "instance",
        "NAME",
        "The instance that is asked, or whose figures are told; that of the port, or each, if \
                none is named",
    )
}

pub(crate) fn seconds<'a>(alloc: Global) -> Arg<'a>
    ensures { HasRule seconds_rule result }
{
    let help = "For how many seconds the answer is waited for, 1 to 3600";
    long_option(alloc, "seconds", "N", help, false)
        .value_parser(value_parser!(u64).range(1..=3600))
        .default_value("5")
}

pub(crate) fn port<'a>(alloc: Global) -> Arg<'a>
    ensures { HasRule port_rule result }
{
    let help = "The port to connect to";
    long_option(alloc, "port", "P", help, true).value_parser(value_parser!(u16).range(1..))
}

/// The port of a server that is asked, where one is.
pub(crate) fn asked_port<'a>(alloc: Global) -> Arg<'a>
    ensures { HasRule asked_port_rule result }
{
    let help = "The port of the server that is asked";
    long_option(alloc, "port", "P", help, false).value_parser(value_parser!(u16).range(1..))
}

/// The file whose figures are told.
pub(crate) fn figures<'a>(alloc: Global) -> Arg<'a>
    ensures { HasRule metrics_rule result }
{
    let help =
        "The file of a server's figures that is told in words, in place of asking the server";
    optional(alloc, "metrics", "FILE", help)
}

pub(crate) fn turns<'a>(alloc: Global) -> Arg<'a>
    ensures { HasRule turns_rule result }
{
    let help = "How many turns to take at most: in each it tries once to send and to read";
    long_option(alloc, "turns", "T", help, false)
        .value_parser(value_parser!(u64).range(..=i64::MAX))
        .default_value("1000000000")
}

/// How long a server lasts.
pub(crate) fn lasting<'a>(alloc: Global) -> Arg<'a>
    ensures { HasRule lasting_rule result }
{
    let help =
        "How many turns to take at most, or endless: a busy server takes the 1000000000 in a day";
    long_option(alloc, "turns", "T", help, false).default_value("1000000000")
}

pub(crate) fn want<'a>(alloc: Global) -> Arg<'a>
    ensures { HasRule want_rule result }
{
    let help = "How many bytes to wait for, as 15 or 64K";
    long_option(alloc, "want", "N", help, true)
}

/// The most blobs of an instance.
pub(crate) fn blobs<'a>(alloc: Global) -> Arg<'a>
    ensures { HasRule blobs_rule result }
{
    let help = "How many blobs each instance stores at most, 1 to 2147483648. Each that is there \
                takes some 570 bytes of memory beside its own";
    long_option(alloc, "blobs", "N", help, false).default_value("65536")
}

/// The most results of an instance.
pub(crate) fn results<'a>(alloc: Global) -> Arg<'a>
    ensures { HasRule results_rule result }
{
    let help = "How many results of actions each instance keeps at most, 0 to 2147483648. Each \
                that is there takes some 250 bytes of memory beside its own";
    long_option(alloc, "results", "N", help, false).default_value("10000")
}

/// The most bytes of the results of an instance.
pub(crate) fn result_bytes<'a>(alloc: Global) -> Arg<'a>
    ensures { HasRule result_bytes_rule result }
{
    let help = "How many bytes the results of each instance have together at most, 4M to 2G. They \
                count in no quota";
    long_option(alloc, "result-bytes", "N", help, false).default_value("67108864")
}

/// The receive windows of connections and of streams.
pub(crate) fn window<'a>(alloc: Global) -> Arg<'a>
    ensures { HasRule window_rule result }
{
    let help = "How many bytes a client may send of a call, and on a connection, before the server \
                has read them, 65535 to 2147483647. An upload brings so many in a round trip at \
                most. It takes no memory by itself";
    long_option(alloc, "window", "N", help, false).default_value("65535")
}
