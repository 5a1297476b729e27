//! Where things lie.
//!
//! A start has a folder, and in it each run has one, and one aside. A path that is no whole path
//! goes from the folder of the start on: its first name is that of a run's folder.

ghost use Rattle.std.specs.Prelude.{◌≡◌, ◌++◌, IfOk, OnOk, codes, map, string_bytes};
ghost use Rattle.std.specs.Option.{option_map_or};
ghost use Rattle.std.specs.Rc.{rc_str_bytes};
ghost use Rattle.run_calls.specs.Values.{place_shown};
ghost use Rattle.run_folders.specs.Folders.{IsParted, aside_name, below, below_all, left_path, node_path, root_name, root_path, working_path};

use run_calls::{Place, RunKey};
use std::alloc::{AllocError, Global};
use std::rc::RcStr;

/// The name of a run's folder: that of job 3 of instance 1 is `1-3`.
pub fn root_name(alloc: Global, run: RunKey) -> Result<String, AllocError>
    ensures { IfOk result (λ name. string_bytes name ≡ root_name run.instance run.job) }
{
    let RunKey { instance, job } = run;
    format!(in alloc; "{instance}-{job}")
}

/// The name of the folder beside a run's own in which stands what is removed of it, and what of it
/// has to have another name. The run's program has no path to it below its own folder.
pub fn aside_name(alloc: Global, run: RunKey) -> Result<String, AllocError>
    ensures { IfOk result (λ name. string_bytes name ≡ aside_name run.instance run.job) }
{
    let RunKey { instance, job } = run;
    format!(in alloc; "{instance}-{job}.aside")
}

/// The whole path of the folder of a run.
pub fn root_path(alloc: Global, work: &str, run: RunKey) -> Result<String, AllocError>
    ensures { IfOk result (λ path. string_bytes path ≡ root_path work.now run.instance run.job) }
{
    let RunKey { instance, job } = run;
    format!(in alloc; "{work}/{instance}-{job}")
}

/// The whole path of a file beside that folder, which has its name and an ending.
pub fn beside_path(
    alloc: Global,
    work: &str,
    run: RunKey,
    ending: &str,
) -> Result<String, AllocError>
    ensures { IfOk result (λ path. string_bytes path
        ≡ work.now ++ (codes "/" ++ (root_name run.instance run.job ++ ending.now))) }
{
    let name = root_name(alloc, run)?;
    format!(in alloc; "{work}/{name}{ending}")
}

/// What has these names from the folder of a run on.
pub fn node_path(alloc: Global, run: RunKey, names: &[RcStr]) -> Result<String, AllocError>
    ensures { IfOk result (λ path. string_bytes path
        ≡ node_path run (map rc_str_bytes names.now)) }
{
    let mut path = root_name(alloc, run)?;
    let mut left = names;
    while let [first, rest @ ..] = left {
        add(&mut path, first)?;
        left = rest;
    }
    Ok(path)
}

/// What has these names from an output on, whose own path is from the working directory on.
pub fn left_path(
    alloc: Global,
    place: &Place,
    path: &str,
    names: &[String],
) -> Result<String, AllocError>
    ensures { IfOk result (λ whole. string_bytes whole
        ≡ left_path (place_shown place.now) path.now (map string_bytes names.now)) }
{
    let mut whole = root_name(alloc, place.run)?;
    add(&mut whole, place.directory.as_str())?;
    add(&mut whole, path)?;
    add_all(&mut whole, names)?;
    Ok(whole)
}

/// The same of the file of an output, or of one in it, which has this name behind those above it.
pub fn file_path(
    alloc: Global,
    place: &Place,
    path: &str,
    above: &[String],
    name: Option<&str>,
) -> Result<String, AllocError>
    ensures { IfOk result (λ whole. string_bytes whole ≡ option_map_or
        (λ n. below (left_path (place_shown place.now) path.now (map string_bytes above.now)) n.now)
        name.entry (left_path (place_shown place.now) path.now (map string_bytes above.now))) }
{
    let mut whole = left_path(alloc, place, path, above)?;
    add(&mut whole, name.unwrap_or(""))?;
    Ok(whole)
}

/// The whole path of the directory in which the program of a run works.
pub fn working_path(alloc: Global, work: &str, place: &Place) -> Result<String, AllocError>
    ensures { IfOk result (λ path. string_bytes path ≡ working_path work.now (place_shown place.now)) }
{
    let mut path = root_path(alloc, work, place.run)?;
    add(&mut path, place.directory.as_str())?;
    Ok(path)
}

/// The path of what a path leads to is in, and its name there.
pub fn parted(path: &str) -> (&str, &str)
    ensures { IsParted path.now result.0.now result.1.now }
{
    match path.rsplit_once('/') {
        Some(parts) => parts,
        None => ("", path),
    }
}

fn add(whole: &mut String, path: &str) -> Result<(), AllocError>
    ensures { OnOk result (string_bytes whole.new ≡ below (string_bytes whole.old) path.now) }
{
    if !path.is_empty() {
        whole.push('/')?;
        whole.push_str(path)?;
    }
    Ok(())
}

fn add_all(whole: &mut String, names: &[String]) -> Result<(), AllocError>
    ensures { OnOk result (string_bytes whole.new
        ≡ below_all (string_bytes whole.old) (map string_bytes names.now)) }
{
    let mut left = names;
    while let [first, rest @ ..] = left {
        add(whole, first.as_str())?;
        left = rest;
    }
    Ok(())
}
