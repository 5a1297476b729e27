//! What a launcher says of itself, in lines of its text, and what an operator is told of that.

ghost use Rattle.std.specs.Prelude.{◌≡◌, ◌==◌, ◌||◌, IfOk, codes};
ghost use Rattle.std.specs.Str.{bytes_eq};

use std::io::{self, ErrorKind, Write};

/// Tells that a file is no launcher, and why.
pub fn tell_no_launcher<E: Write>(
    program: &str,
    kind: ErrorKind,
    errors: &mut E,
) -> io::Result<()> {
    let why = match kind {
        ErrorKind::NotFound => "there is no such file",
        ErrorKind::PermissionDenied => "it is no file that the server may execute",
        _ => "its path leads to no file",
    };
    writeln!(errors, "remoted: cannot run {program}: {why}")
}

/// How a line of a launcher begins that names the files that it needs beside it, and behind ` - `
/// where they come from.
const NEEDS: &str = "# needs: ";

/// What a line of a launcher says that is needed, and where it comes from; none where it says
/// nothing of that.
fn need_of(line: &[u8]) -> Option<(&str, &str)> {
    let need = str::from_utf8(line).ok()?.strip_prefix(NEEDS)?;
    Some(need.split_once(" - ").unwrap_or((need, "it needs that")))
}

/// Tells the first file that a launcher lacks beside it, of those that its text says that it needs.
pub fn tell_lacking<E: Write, F: Fn(&str) -> io::Result<bool>>(
    path: &str,
    text: &[u8],
    is_lacking: F,
    errors: &mut E,
) -> io::Result<()>
    requires { F.IsAlwaysCallable is_lacking }
{
    for line in text.split(|byte| *byte == b'\n') {
        let Some((names, origin)) = need_of(line) else {
            continue;
        };
        for name in names.split_ascii_whitespace() {
            if is_lacking(name)? {
                return writeln!(
                    errors,
                    "remoted: {path} lacks {name} beside it, so each action will fail: {origin}"
                );
            }
        }
    }
    Ok(())
}

/// Whether a line of a launcher says that of what it started nothing runs any more once it has
/// ended. Then nobody can have a lease on what a run left.
fn says_no_process(line: &[u8]) -> bool
    ensures { result ≡ bytes_eq line.now (codes "# leaves: no process") }
{
    line == b"# leaves: no process".as_slice()
}

/// Whether a launcher says in its text that it leaves no process.
pub fn leaves_no_process(text: &[u8]) -> bool {
    text.split(|byte| *byte == b'\n')
        .any(|line| says_no_process(line))
}

/// Whether a line of a launcher says that it binds the made trees of each run.
fn says_trees(line: &[u8]) -> bool
    ensures { result ≡ bytes_eq line.now (codes "# binds: trees") }
{
    line == b"# binds: trees".as_slice()
}

/// Whether a launcher says in its text that it binds made trees.
pub fn binds_trees(text: &[u8]) -> bool {
    text.split(|byte| *byte == b'\n')
        .any(|line| says_trees(line))
}

/// Whether made trees may have so many bytes, by whether a launcher says that it binds them. Where
/// it does not, that is told.
pub fn can_bind<E: Write>(
    bytes: u64,
    program: &str,
    binds: bool,
    errors: &mut E,
) -> io::Result<bool>
    ensures { IfOk result (λ can. can ≡ (bytes == 0 || binds)) }
{
    let can = bytes == 0 || binds;
    if !can {
        writeln!(
            errors,
            "remoted: {program} does not say by a line `# binds: trees` that it binds them: leave \
             out --made-trees"
        )?;
    }
    Ok(can)
}
