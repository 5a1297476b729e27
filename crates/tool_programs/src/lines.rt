//! The lines of a run.
ghost use Rattle.std.specs.Prelude.{◌≡◌, ◌≤◌, ◌<◌, ◌^◌, ◌++◌, length, vec_len, map, OnOk, IfOk};
ghost use Rattle.server_core.specs.Shown.{sent_shown, ordered_shown, refused_shown, instance_output_shown};
ghost use Rattle.tool_programs.specs.Printed.{sent_lines, order_lines, order_line, refusal_lines, output_lines, stray_lines};
ghost use Rattle.tool_programs.specs.Outputs.{outputs_lines};

use script::replay_lines::{write_kill, write_refusal, write_sent, write_start, write_stray};
use server_core::{InstanceOutput, OrderedAt, Outputs, RefusedEvent, RunOrder, SentBytes};
use std::alloc::{AllocError, Global};

fn write_all_sent(text: &mut Vec<u8>, instance: u32, sent: &[SentBytes]) -> Result<(), AllocError>
    ensures { OnOk result (text.new.items ≡ text.old.items
        ++ sent_lines instance (map sent_shown sent.now)) }
{
    let mut left = sent;
    'sent: while let [first, rest @ ..] = left {
        write_sent(text, instance, first.connection, &first.bytes)?;
        left = rest;
    }
    Ok(())
}

fn write_order(text: &mut Vec<u8>, instance: u32, ordered: &OrderedAt) -> Result<(), AllocError>
    ensures { OnOk result (text.new.items ≡ text.old.items
        ++ order_line instance (ordered_shown ordered.now)) }
{
    match &ordered.order {
        RunOrder::Start { job, .. } => write_start(text, instance, ordered.place, *job),
        RunOrder::Kill { job } => write_kill(text, instance, ordered.place, *job),
    }
}

fn write_all_orders(
    text: &mut Vec<u8>,
    instance: u32,
    orders: &[OrderedAt],
) -> Result<(), AllocError>
    ensures { OnOk result (text.new.items ≡ text.old.items
        ++ order_lines instance (map ordered_shown orders.now)) }
{
    let mut left = orders;
    'orders: while let [first, rest @ ..] = left {
        write_order(text, instance, first)?;
        left = rest;
    }
    Ok(())
}

fn write_all_refused(
    text: &mut Vec<u8>,
    instance: u32,
    refused: &[RefusedEvent],
) -> Result<(), AllocError>
    ensures { OnOk result (text.new.items ≡ text.old.items
        ++ refusal_lines instance (map refused_shown refused.now)) }
{
    let mut left = refused;
    'refused: while let [first, rest @ ..] = left {
        write_refusal(text, instance, first.place, first.refusal.code())?;
        left = rest;
    }
    Ok(())
}

fn write_output(
    text: &mut Vec<u8>,
    instance: u32,
    output: &InstanceOutput,
) -> Result<(), AllocError>
    ensures { OnOk result (text.new.items ≡ text.old.items
        ++ output_lines instance (instance_output_shown output.now)) }
{
    write_all_sent(text, instance, &output.sent)?;
    write_all_orders(text, instance, &output.orders)?;
    write_all_refused(text, instance, &output.refusals)
}

fn write_outputs(text: &mut Vec<u8>, outputs: &[InstanceOutput]) -> Result<(), AllocError>
    requires { length outputs.now < 2 ^ 32 }
    ensures { OnOk result (text.new.items ≡ text.old.items
        ++ outputs_lines 0 (map instance_output_shown outputs.now)) }
{
    let mut instance = 0;
    let mut left = outputs;
    'outputs: while let [first, rest @ ..] = left {
        write_output(text, instance, first)?;
        instance += 1;
        left = rest;
    }
    Ok(())
}

fn write_strays(text: &mut Vec<u8>, strays: &[u64]) -> Result<(), AllocError>
    ensures { OnOk result (text.new.items ≡ text.old.items ++ stray_lines strays.now) }
{
    let mut left = strays;
    'strays: while let [first, rest @ ..] = left {
        write_stray(text, *first)?;
        left = rest;
    }
    Ok(())
}

/// The lines that outputs print.
pub fn lines(alloc: Global, outputs: &Outputs) -> Result<Vec<u8>, AllocError>
    requires { vec_len outputs.now.instances < 2 ^ 32 }
    ensures { IfOk result (λ text. text.items
        ≡ outputs_lines 0 (map instance_output_shown outputs.now.instances.items)
        ++ stray_lines outputs.now.strays.items) }
{
    let mut text = Vec::new(alloc);
    write_outputs(&mut text, &outputs.instances)?;
    write_strays(&mut text, &outputs.strays)?;
    Ok(text)
}
