//! The program `remoted`.
#![tactic(auto)]

mod beginning;
mod checking;
mod clock;
mod ending;
mod exit;
mod needs;
mod operator;
mod process;
mod reading;
mod serve_ports;
mod sessions;
mod standard_error;
mod telling;
mod watching;

use crate::checking::check_port;
use crate::exit::{DONE, Exit, FAILED};
use crate::process::{open_streams, reads_terminal, words_of};
use crate::reading::read_told;
use crate::serve_ports::serve_ports;
use crate::telling::tell_file;
use command_line::{CommandLineError, Invocation, parse};
use operator_lines::tell_usage;
use script::{ScriptKind, fault_of_line};
use server_events::Limits;
use std::io::{self, BufWriter, ErrorKind, Write};
use std::net::{Ipv4Addr, SocketAddr, TcpStream};
use std::process::ExitCode;
use tool_programs::{Fault, Request, Status, probe, read_all, replay, told, unary};

/// Carries out the script of a text by instances with these numbers, and says how the program ends.
/// Of a bad line it is told what is wrong with it, on a line behind the one that names it.
fn carry_out<O: Write, E: Write>(
    rt: &HostRuntime,
    script: ScriptKind,
    limits: Limits,
    text: &[u8],
    output: &mut O,
    errors: &mut E,
) -> io::Result<Exit> {
    let mut input = text;
    let status = match script {
        ScriptKind::Calls => unary(rt.alloc(), limits, &mut input, output, errors),
        ScriptKind::Events => replay(rt.alloc(), limits, &mut input, output, errors),
    };
    if let Status::BadLine(number) = status {
        if let Some(fault) = fault_of_line(script, text, number) {
            writeln!(errors, "remoted: line {number}: {fault}")?;
        }
    }
    Ok(Exit::With(status))
}

/// Carries out the script of calls on standard input, and says how the program ends. Whoever may be
/// asked for it at a terminal is told.
fn carry_out_input<O: Write, E: Write>(
    rt: &HostRuntime,
    limits: Limits,
    output: &mut O,
    errors: &mut E,
) -> io::Result<Exit> {
    if reads_terminal() {
        writeln!(
            errors,
            "remoted: reads a script of calls from this terminal, up to Ctrl-D; other commands are \
             in remoted --help"
        )?;
    }
    match read_all(rt.alloc(), &mut rt.stdin()) {
        Ok(text) => carry_out(rt, ScriptKind::Calls, limits, &text, output, errors),
        Err(fault) => Ok(Exit::With(told(Err(fault.status()), errors))),
    }
}

/// Carries out the script of a file by instances with these numbers, and says how the program ends.
fn carry_out_file<O: Write, E: Write>(
    rt: &HostRuntime,
    script: ScriptKind,
    limits: Limits,
    file: &str,
    output: &mut O,
    errors: &mut E,
) -> io::Result<Exit> {
    let Some(text) = read_told(rt, file, errors)? else {
        return Ok(FAILED);
    };
    carry_out(rt, script, limits, &text, output, errors)
}

/// Connects to a port of this host. Where that fails it is told why.
fn connected<E: Write>(rt: &HostRuntime, port: u16, errors: &mut E) -> io::Result<TcpStream> {
    let connected = TcpStream::connect(rt, SocketAddr::from((Ipv4Addr::LOCALHOST, port)));
    if let Err(error) = &connected {
        writeln!(errors, "remoted: cannot connect to {port}: {error}")?;
    }
    connected
}

/// Sends a request to a port of this host, and shows what comes back.
fn probe_port<O: Write, E: Write>(
    rt: &HostRuntime,
    port: u16,
    request: Request<'_>,
    output: &mut O,
    errors: &mut E,
) -> io::Result<Status> {
    let stream = connected(rt, port, errors)?;
    stream.set_nonblocking(true)?;
    let (mut from_peer, mut to_peer) = (&stream, &stream);
    Ok(probe(
        rt,
        rt.alloc(),
        request,
        &mut from_peer,
        &mut to_peer,
        output,
        errors,
    ))
}

/// Sends the bytes of a file to a port of this host, shows what comes back, and says how the
/// program ends.
fn probe_with_file<O: Write, E: Write>(
    rt: &HostRuntime,
    port: u16,
    file: &str,
    (want, turns): (u64, u64),
    output: &mut O,
    errors: &mut E,
) -> io::Result<Exit> {
    let Some(bytes) = read_told(rt, file, errors)? else {
        return Ok(FAILED);
    };
    let request = Request {
        bytes: &bytes,
        want,
        turns,
    };
    let status = probe_port(rt, port, request, output, errors)?;
    Ok(Exit::With(status))
}

/// Does what is asked for, and says how the program ends.
fn perform<O: Write, E: Write>(
    rt: &HostRuntime,
    invocation: &Invocation<'_>,
    output: &mut O,
    errors: &mut E,
) -> io::Result<Exit> {
    match invocation {
        Invocation::Unary {
            file: Some(file),
            limits,
        } => carry_out_file(rt, ScriptKind::Calls, *limits, file, output, errors),
        Invocation::Unary { file: None, limits } => carry_out_input(rt, *limits, output, errors),
        Invocation::Replay { file, limits } => {
            carry_out_file(rt, ScriptKind::Events, *limits, file, output, errors)
        }
        Invocation::Probe {
            port,
            send,
            want,
            turns,
        } => probe_with_file(rt, *port, send, (*want, *turns), output, errors),
        Invocation::Check(question) => check_port(rt, *question, output, errors),
        Invocation::Figures { metrics, instance } => {
            tell_file(rt, metrics, *instance, output, errors)
        }
        Invocation::Serve(service) => serve_ports(rt, service, output, errors),
    }
}

/// Prints what is said of the words of a command line: a fault, or help, and says how the program
/// ends.
fn answer_words<E: Write>(
    rt: &HostRuntime,
    error: &command_line::Error,
    errors: &mut E,
) -> io::Result<Exit> {
    if command_line::status(error) == 0 {
        error.print(rt)?;
        return Ok(DONE);
    }
    let text = format!(in rt.alloc(); "{error}")?;
    tell_usage(text.as_str(), errors)?;
    Ok(Exit::BadWords)
}

/// Does what these words of a command line ask for, and says how the program ends.
fn answer<O: Write, E: Write>(
    rt: &HostRuntime,
    words: &[String],
    output: &mut O,
    errors: &mut E,
) -> io::Result<Exit> {
    match parse(rt.alloc(), words) {
        Ok(invocation) => perform(rt, &invocation, output, errors),
        Err(CommandLineError::NoMemory) => Err(io::Error::from(ErrorKind::OutOfMemory)),
        Err(CommandLineError::Answered(error)) => answer_words(rt, &error, errors),
    }
}

/// Does what the command line asks for, and says how the program ends.
fn exit_of(rt: &HostRuntime) -> io::Result<Exit> {
    open_streams()?;
    let Some(words) = words_of(rt, &mut rt.stderr())? else {
        return Ok(Exit::BadWords);
    };
    let mut output = BufWriter::new(rt.alloc(), rt.stdout())?;
    let exit = answer(rt, &words, &mut output, &mut rt.stderr())?;
    match output.flush() {
        // Where writing failed, that was told before.
        Err(error) if exit != FAILED => Err(error),
        _ => Ok(exit),
    }
}

fn main(rt: HostRuntime) -> ExitCode {
    match exit_of(&rt) {
        Ok(exit) => ExitCode::from(exit.code()),
        Err(error) => {
            let status = Fault::of(&error).status();
            let _told: io::Result<()> = status.tell(&mut rt.stderr());
            ExitCode::from(status.code())
        }
    }
}
