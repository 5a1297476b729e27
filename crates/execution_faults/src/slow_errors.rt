//! Lines to an output that takes some of them in part, or not at once.

use serve::ErrorLines;
use std::alloc::AllocError;
use std::io::{self, ErrorKind, Write};
use tool_programs::Output;

/// How many bytes each write of some takes at most; none where it would have to wait. Any further
/// one takes all.
static TAKES: [usize; 6] = [usize::MAX, 0, 0, 5, 0, usize::MAX];

static LINES: [&str; 7] = [
    "first\n",
    "second\n",
    "third\n",
    "fourth\n",
    "fifth\n",
    "sixth\n",
    "seventh\n",
];

/// An output that takes some bytes in part, or not at once.
#[derive(Drop)]
struct Slow {
    taken: Vec<u8>,
    /// How many writes of some bytes there were.
    writes: usize,
}

impl Write for Slow {
    ghost use Rattle.std.specs.Prelude.{Some};

    ghost contents = { λ s. Some s.taken.items };

    fn write(&mut self, bytes: &[u8]) -> io::Result<usize> {
        if bytes.is_empty() {
            return Ok(0);
        }
        let most = TAKES.get(self.writes).copied().unwrap_or(usize::MAX);
        self.writes = self.writes.saturating_add(1);
        if most == 0 {
            return Err(io::Error::from(ErrorKind::WouldBlock));
        }
        let count = bytes.len().min(most);
        self.taken.extend_from_slice(&bytes[..count])?;
        Ok(count)
    }

    fn flush(&mut self) -> io::Result<()> {
        Ok(())
    }
}

/// Tells what such an output holds once some lines were written to it.
pub fn write_lines(output: &mut Output) -> Result<(), AllocError> {
    let alloc = output.alloc;
    let slow = Slow {
        taken: Vec::new(alloc),
        writes: 0,
    };
    let mut lines = ErrorLines::new(alloc, slow, 0)?;
    for line in &LINES {
        lines.write_line(line);
    }
    output.print(&lines.output.taken);
    Ok(())
}
