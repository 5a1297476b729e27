//! The lines that tell what a server did with a script of events: for each instance the bytes that
//! it sent on each connection, what it ordered, and the events that it refused; and the events that
//! were no instance's.
ghost use Rattle.std.specs.Prelude.{◌≡◌, ◌++◌, OnOk, OnErr};
ghost use Rattle.script.specs.ResultLines.{sent_line, start_line, kill_line, refusal_line, stray_line};

use crate::hexadecimal::hex_text;
use std::alloc::AllocError as NoMemory;

/// Appends `out I C HEX` and a newline: the bytes that an instance put on a connection. Where
/// memory is refused, `out` has the items that it had.
pub fn write_sent(
    out: &mut Vec<u8>,
    instance: u32,
    connection: u32,
    bytes: &[u8],
) -> Result<(), NoMemory>
    ensures written { OnOk result (out.new.items ≡ out.old.items
        ++ sent_line instance connection bytes.now) }
    ensures refused { OnErr result (out.new.items ≡ out.old.items) }
{
    let hex = hex_text(*out.allocator(), bytes)?;
    let line = format!(in *out.allocator(); "out {instance} {connection} {hex}\n")?;
    out.extend_from_slice(line.as_bytes())
}

/// Appends `order I K start JOB` and a newline: at its event of that place, counted from 1, the
/// instance had the job started. Where memory is refused, `out` has the items that it had.
pub fn write_start(out: &mut Vec<u8>, instance: u32, place: u64, job: u64) -> Result<(), NoMemory>
    ensures written { OnOk result (out.new.items ≡ out.old.items ++ start_line instance place job) }
    ensures refused { OnErr result (out.new.items ≡ out.old.items) }
{
    let line = format!(in *out.allocator(); "order {instance} {place} start {job}\n")?;
    out.extend_from_slice(line.as_bytes())
}

/// Appends `order I K kill JOB` and a newline: at its event of that place, counted from 1, the
/// instance had the job's program killed. Where memory is refused, `out` has the items that it had.
pub fn write_kill(out: &mut Vec<u8>, instance: u32, place: u64, job: u64) -> Result<(), NoMemory>
    ensures written { OnOk result (out.new.items ≡ out.old.items ++ kill_line instance place job) }
    ensures refused { OnErr result (out.new.items ≡ out.old.items) }
{
    let line = format!(in *out.allocator(); "order {instance} {place} kill {job}\n")?;
    out.extend_from_slice(line.as_bytes())
}

/// Appends `refused I K CODE` and a newline: the instance refused its event of that place, counted
/// from 1. Where memory is refused, `out` has the items that it had.
pub fn write_refusal(
    out: &mut Vec<u8>,
    instance: u32,
    place: u64,
    code: u32,
) -> Result<(), NoMemory>
    ensures written { OnOk result (out.new.items ≡ out.old.items
        ++ refusal_line instance place code) }
    ensures refused { OnErr result (out.new.items ≡ out.old.items) }
{
    let line = format!(in *out.allocator(); "refused {instance} {place} {code}\n")?;
    out.extend_from_slice(line.as_bytes())
}

/// Appends `stray K` and a newline: the event of that place among all, counted from 1, was no
/// instance's. Where memory is refused, `out` has the items that it had.
pub fn write_stray(out: &mut Vec<u8>, place: u64) -> Result<(), NoMemory>
    ensures written { OnOk result (out.new.items ≡ out.old.items ++ stray_line place) }
    ensures refused { OnErr result (out.new.items ≡ out.old.items) }
{
    let line = format!(in *out.allocator(); "stray {place}\n")?;
    out.extend_from_slice(line.as_bytes())
}
