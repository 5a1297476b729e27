//! A text as a script.
ghost use Rattle.std.specs.Prelude.{◌≡◌, ◌<◌, ◌++◌, [], ◌∷◌, map, vec_len, Some, None, Ok, Err, IfOk, IfErr, OnOk};
ghost use Rattle.std.specs.List.{All};
ghost use Rattle.script.specs.UnaryLines.{HasGoodInstances, instance_place};
ghost use Rattle.script.specs.UnaryScript.{unary_script_of, after_unary_line, instance_of, put_of, call_of, instance_index};
ghost use Rattle.script.specs.Faults.{IsFaultOf};
ghost use Rattle.script.specs.UnaryShown.{entry_value, instance_value, command_value, unary_script_value};
ghost use Rattle.script.specs.UnaryLinesRead.{lines_value};

use crate::arguments::{three, two};
use crate::fault::{LineFault, ScriptFault};
use crate::reader::{FromLines, read_lines};
use crate::unary::command::{Command, Instance, UnaryScript};
use crate::unary::method::Method;
use crate::{Parts, hex_bytes, words};
use keyed_maps::{KeyedMap, MapKey};
use numerals::decimal;
use server_events::{is_instance_name, is_quota};
use std::alloc::{AllocError, Global};
use std::str;

/// The script that a text writes, or the number of its first bad line: one that has no form,
/// configures an instance after a command, names an instance or a method that is not known, or
/// configures an instance that may not be.
pub fn parse(alloc: Global, text: &[u8]) -> Result<UnaryScript, ScriptFault>
    ensures script { IfOk result (λ script.
        unary_script_of text.now ≡ Ok (unary_script_value script)) }
    ensures bad_line { IfErr result (IsFaultOf (unary_script_of text.now)) }

    // The instances may all be configured, and each command is for one of them.
    ensures instances { IfOk result (λ script.
        HasGoodInstances (unary_script_value script).instances) }
    ensures commands { IfOk result (λ script. All
        (λ command. instance_place (command_value command) < vec_len script.instances)
        script.commands.items) }
{
    let mut lines = UnaryLines {
        quotas: KeyedMap::with_hasher(alloc, MapKey::known()),
        commands: Vec::new(alloc),
    };
    read_lines(alloc, &mut lines, text)?;
    let instances = instances(alloc, lines.quotas)?;
    Ok(UnaryScript {
        instances,
        commands: lines.commands,
    })
}

// The quotas of instances by their names, in the order of their lines.
pub(crate) type Quotas = KeyedMap<String, u64>;

// What lines say so far.
#[derive(Drop)]
pub(crate) struct UnaryLines {
    pub(crate) quotas: Quotas,
    pub(crate) commands: Vec<Command>,
}

impl FromLines for UnaryLines {
    ghost use Rattle.script.specs.UnaryScript.{UnaryScriptValue};
    ghost use Rattle.script.specs.UnaryLinesRead.{lines_value};

    ghost Value = { UnaryScriptValue };

    ghost value_of = { lines_value };

    ghost after_line = { after_unary_line };

    fn read_line(&mut self, alloc: Global, line: &[u8]) -> Result<(), LineFault> {
        add_line(alloc, self, line)
    }
}

// Adds what one more line says.
fn add_line(alloc: Global, lines: &mut UnaryLines, line: &[u8]) -> Result<(), LineFault>
    ensures read { OnOk result (after_unary_line (lines_value lines.old) line.now
        ≡ Some (lines_value lines.new)) }
    ensures bad { result ≡ Err LineFault.Bad →
        after_unary_line (lines_value lines.old) line.now ≡ None }
{
    if line.is_empty() {
        return Ok(());
    }
    let mut words = words(line);
    let kind = words.next().ok_or(LineFault::Bad)?;
    if kind == b"instance".as_slice() {
        if !lines.commands.is_empty() {
            return Err(LineFault::Bad);
        }
        let instance = read_instance(alloc, &lines.quotas, words)?;
        add_instance(&mut lines.quotas, instance)?;
    } else if kind == b"put".as_slice() {
        let command = read_put(alloc, &lines.quotas, words)?;
        lines.commands.push(command)?;
    } else if kind == b"call".as_slice() {
        let command = read_call(alloc, &lines.quotas, words)?;
        lines.commands.push(command)?;
    } else {
        return Err(LineFault::Bad);
    }
    Ok(())
}

// Adds an instance of another name than those before it.
fn add_instance(known: &mut Quotas, instance: Instance) -> Result<(), AllocError>
    requires { instance_index (map entry_value known.old.entries) (instance_value instance).name
        ≡ None }
    ensures { OnOk result (map entry_value known.new.entries
        ≡ map entry_value known.old.entries ++ instance_value instance ∷ []) }
{
    known.insert(instance.name, instance.quota)?;
    Ok(())
}

// The instance of the words NAME QUOTA.
fn read_instance(alloc: Global, known: &Quotas, words: Parts) -> Result<Instance, LineFault>
    ensures read { IfOk result (λ instance. instance_of (map entry_value known.now.entries)
        words.entry ≡ Some (instance_value instance)) }
    ensures new { IfOk result (λ instance. instance_index (map entry_value known.now.entries)
        (instance_value instance).name ≡ None) }
    ensures bad { result ≡ Err LineFault.Bad →
        instance_of (map entry_value known.now.entries) words.entry ≡ None }
{
    let (name, quota) = two(words).ok_or(LineFault::Bad)?;
    let quota = decimal(quota).ok_or(LineFault::Bad)?;
    if !is_instance_name(name) || !is_quota(quota) || place(known, name).is_some() {
        return Err(LineFault::Bad);
    }
    // An instance's name is ASCII, so it is UTF-8, which a `String` asks for by its type.
    let Ok(name) = str::from_utf8(name) else {
        return Err(LineFault::Bad);
    };
    Ok(Instance {
        name: String::from_str(alloc, name)?,
        quota,
    })
}

// The command of the words NAME HEX after `put`.
fn read_put(alloc: Global, known: &Quotas, words: Parts) -> Result<Command, LineFault>
    ensures read { IfOk result (λ command. put_of (map entry_value known.now.entries) words.entry
        ≡ Some (command_value command)) }
    ensures bad { result ≡ Err LineFault.Bad →
        put_of (map entry_value known.now.entries) words.entry ≡ None }
{
    let (name, content) = two(words).ok_or(LineFault::Bad)?;
    let instance = place(known, name).ok_or(LineFault::Bad)?;
    let content = hex_bytes(alloc, content)?.ok_or(LineFault::Bad)?;
    Ok(Command::Put { instance, content })
}

// The command of the words NAME METHOD HEX after `call`.
fn read_call(alloc: Global, known: &Quotas, words: Parts) -> Result<Command, LineFault>
    ensures read { IfOk result (λ command. call_of (map entry_value known.now.entries) words.entry
        ≡ Some (command_value command)) }
    ensures bad { result ≡ Err LineFault.Bad →
        call_of (map entry_value known.now.entries) words.entry ≡ None }
{
    let (name, method, message) = three(words).ok_or(LineFault::Bad)?;
    let instance = place(known, name).ok_or(LineFault::Bad)?;
    let method = Method::named(method).ok_or(LineFault::Bad)?;
    let message = hex_bytes(alloc, message)?.ok_or(LineFault::Bad)?;
    Ok(Command::Call {
        instance,
        method,
        message,
    })
}

// The place of the instance of that name.
fn place(known: &Quotas, name: &[u8]) -> Option<usize>
    ensures { result ≡ instance_index (map entry_value known.now.entries) name.now }
{
    match str::from_utf8(name) {
        Ok(name) => known.get_index_of(name),
        Err(_) => None,
    }
}

// The instances, in their order.
fn instances(alloc: Global, quotas: Quotas) -> Result<Vec<Instance>, AllocError>
    ensures { IfOk result (λ instances. map instance_value instances.items
        ≡ map entry_value quotas.entries) }
{
    let mut instances = Vec::with_capacity(alloc, quotas.len())?;
    for (name, quota) in quotas {
        instances.push(Instance { name, quota })?;
    }
    Ok(instances)
}
