//! `remoted check`.

use crate::exit::Exit;
use command_line::Question;
use operator_lines::{Outcome, address_of, is_memory, tell_outcome};
use std::io::{self, Write};
use std::net::{SocketAddr, TcpStream};
use std::time::Duration;
use tool_programs::{ask, question_bytes};

/// Connects to a server, and asks it.
fn ask_server(rt: &HostRuntime, address: SocketAddr, asked: Question<'_>) -> io::Result<Outcome> {
    let patience = Duration::from_secs(asked.seconds);
    let stream = match TcpStream::connect_timeout(rt, &address, patience) {
        Ok(stream) => stream,
        Err(error) if is_memory(&error) => return Err(error),
        Err(error) => return Ok(Outcome::Unconnected(error)),
    };
    stream.set_nonblocking(true)?;
    let authority = format!(in rt.alloc(); "{address}")?;
    let question = question_bytes(rt.alloc(), authority.as_str(), asked.instance.unwrap_or(""))?;
    let (mut from_peer, mut to_peer) = (&stream, &stream);
    let answer = ask(
        rt,
        rt.alloc(),
        &question,
        patience,
        &mut from_peer,
        &mut to_peer,
    )?;
    Ok(Outcome::Asked(answer))
}

/// Asks a server what it can do, tells whether it answers, and says how the program ends.
pub fn check_port<O: Write, E: Write>(
    rt: &HostRuntime,
    asked: Question<'_>,
    output: &mut O,
    errors: &mut E,
) -> io::Result<Exit> {
    let Some(address) = address_of(asked, errors)? else {
        return Ok(Exit::BadWords);
    };
    let outcome = ask_server(rt, address, asked)?;
    let is_right = tell_outcome(address, asked.seconds, &outcome, output, errors)?;
    Ok(Exit::of_answer(is_right))
}
