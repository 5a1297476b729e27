//! What `remoted check` tells of a server that was asked.

ghost use Rattle.std.specs.Prelude.{◌≡◌, IfOk, IfSome};
ghost use Rattle.std.specs.Net.Socket.{socket_port};

use crate::lines::ToldAddress;
use crate::options::ip_of;
use command_line::Question;
use std::io::{self, Write};
use std::net::SocketAddr;
use tool_programs::Answer;

/// The most bytes of an instance's name.
const NAME_LIMIT: usize = 64;

/// What came of asking a server.
#[derive(Drop)]
pub enum Outcome {
    /// There is no connection to it.
    Unconnected(io::Error),
    Asked(Answer),
}

/// The address of the server that is asked. Where the question's words are wrong, that is told, and
/// there is no answer.
pub fn address_of<E: Write>(asked: Question<'_>, errors: &mut E) -> io::Result<Option<SocketAddr>>
    ensures { IfOk result (λ found.
        IfSome found (λ address. socket_port address ≡ asked.entry.port)) }
{
    let name = asked.instance.unwrap_or("");
    match ip_of("--host", asked.host, errors)? {
        Some(_) if name.len() > NAME_LIMIT => {
            writeln!(
                errors,
                "remoted: --instance is longer than any name: {name}"
            )?;
            Ok(None)
        }
        Some(host) => Ok(Some(SocketAddr::new(host, asked.port))),
        None => Ok(None),
    }
}

/// Tells what came of asking the server at an address, which had so many seconds to answer, and
/// says whether it answered as it should.
pub fn tell_outcome<O: Write, E: Write>(
    address: SocketAddr,
    seconds: u64,
    outcome: &Outcome,
    output: &mut O,
    errors: &mut E,
) -> io::Result<bool> {
    let told = ToldAddress(address);
    match outcome {
        Outcome::Asked(Answer::Given) => {
            writeln!(output, "remoted: {told} answers")?;
            return Ok(true);
        }
        Outcome::Unconnected(error) => {
            writeln!(errors, "remoted: cannot connect to {told}: {error}")?;
        }
        Outcome::Asked(Answer::Refused(text)) => {
            writeln!(errors, "remoted: {told} refused: {text}")?;
        }
        Outcome::Asked(Answer::Broken(text)) => {
            writeln!(errors, "remoted: {told} gave no answer: {text}")?;
        }
        Outcome::Asked(Answer::Failed(error)) => {
            writeln!(errors, "remoted: {told} gave no answer: {error}")?;
        }
        Outcome::Asked(Answer::Silent) => {
            writeln!(errors, "remoted: {told} gave no answer in {seconds} s")?;
        }
    }
    Ok(false)
}
