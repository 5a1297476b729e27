//! The commands of a script, carried out by the instances that it names.

ghost use Rattle.std.specs.Prelude.{◌≡◌, ◌++◌, ◌<◌, ◌≤◌, ◌^◌, ℕ, List, [], ◌∷◌, length, map, OnOk, OnErr, IfOk, IfErr, Ok, Err, Result};
ghost use Rattle.std.specs.List.{All};
ghost use Rattle.script.specs.UnaryShown.{instance_value, command_value};
ghost use Rattle.script.specs.LimitsShown.{limits_value};
ghost use Rattle.script.specs.UnaryLines.{instance_place};
ghost use Rattle.rpc.specs.declared.refusal.Refusal.{Refusal};
ghost use Rattle.tool_programs.specs.Session.{new_store, ok_line, status_line, line_of, store_after, store_of, stores_after};
ghost use Rattle.quota_evict.specs.Within.{most_stored_bytes};

use crate::store::Store;
use cas_service::CallError;
use rpc::Refusal;
use script::unary::{Command, Instance};
use script::{Limits, write_hex};
use std::alloc::{AllocError, Global};

/// The instances of a script, for which these limits were chosen, with no texts yet.
pub fn open_all(
    alloc: Global,
    limits: Limits,
    instances: &[Instance],
) -> Result<Vec<Store>, AllocError>
    requires { All (λ instance. instance.quota ≤ most_stored_bytes) instances.now }
    ensures { IfOk result (λ stores. stores.items
        ≡ map (new_store (limits_value limits)) (map instance_value instances.now)) }
{
    let mut stores = Vec::new(alloc);
    for instance in instances {
        let store = Store::open(alloc, limits, instance)?;
        stores.push(store)?;
    }
    Ok(stores)
}

/// Adds `ok HEX`.
fn write_reply(line: &mut Vec<u8>, reply: &[u8]) -> Result<(), AllocError>
    ensures { OnOk result (line.new.items ≡ line.old.items ++ ok_line reply.now) }
{
    line.extend_from_slice(b"ok ")?;
    write_hex(line, reply)
}

/// Adds `status CODE TEXT`.
fn write_refusal(alloc: Global, line: &mut Vec<u8>, refusal: Refusal) -> Result<(), AllocError>
    ensures { OnOk result (line.new.items ≡ line.old.items ++ status_line refusal) }
{
    let code = refusal.code().unsigned_abs().to_string(alloc)?;
    line.extend_from_slice(b"status ")?;
    line.extend_from_slice(code.as_bytes())?;
    line.extend_from_slice(b" ")?;
    line.extend_from_slice(refusal.text().as_bytes())
}

/// Carries a command out on its instance, and adds the line that it prints.
fn carry_out(
    alloc: Global,
    store: &mut Store,
    command: &Command,
    line: &mut Vec<u8>,
) -> Result<(), AllocError>
    ensures line { OnOk result (line.new.items ≡ line.old.items
        ++ line_of (command_value command.now) store.old) }
    ensures after { OnOk result (store.new ≡ store_after (command_value command.now) store.old) }
{
    match command {
        Command::Put { content, .. } => {
            let refused = store.put(content)?;
            line.extend_from_slice(if refused {
                b"refused"
            } else {
                b"stored".as_slice()
            })
        }
        Command::Call {
            method,
            message,
            ..
        } => match store.call(alloc, *method, message) {
            Ok(reply) => write_reply(line, &reply),
            Err(CallError::Refused(refusal)) => write_refusal(alloc, line, refusal),
            Err(CallError::NoMemory) => Err(AllocError),
        },
    }
}

/// The place of the instance that a command is for.
fn place(command: &Command) -> usize
    ensures { result ≡ instance_place (command_value command.now) }
{
    match command {
        Command::Put { instance, .. } => *instance,
        Command::Call { instance, .. } => *instance,
    }
}

/// Carries a command out, and gives the line that it prints, with a newline.
pub fn answer(alloc: Global, stores: &mut [Store], command: &Command) -> Result<Vec<u8>, AllocError>
    requires { instance_place (command_value command.now) < length stores.old }
    ensures line { IfOk result (λ line. line.items
        ≡ line_of (command_value command.now) (store_of (command_value command.now) stores.old)
        ++ 10 ∷ []) }
    ensures after { OnOk result (stores.new ≡ stores_after (command_value command.now) stores.old) }
{
    let mut line = Vec::new(alloc);
    let store = &mut stores[place(command)];
    carry_out(alloc, store, command, &mut line)?;
    line.push(b'\n')?;
    Ok(line)
}
