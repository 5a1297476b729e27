//! Shells of this host that send signals.

ghost use Rattle.std.specs.Prelude.{◌≡◌};

use crate::programs::HostChild;
use crate::shells::{HostShell, HostShells, spawned};
use std::alloc::{AllocError, Global};
use std::io;
use system::{Child, Ending, Shell, Signals};

/// Sends a signal to the process of each number that it is told, or to the group of one behind `-`,
/// and writes one byte for it. Behind that may stand the session in which the process has to be,
/// and a number that no process may have, or `-` for each: right before it sends the signal, it
/// looks whether that is so. It is nothing amiss where it is not, or where there is no such
/// process. It starts no process: that could be refused.
const SCRIPT: &str = "set -f
is_in() {
  line=
  while IFS= read -r part; do line=\"$line$part \"; done < \"/proc/$1/stat\"
  set -- \"$2\" ${line##*) }
  [ \"$5\" = \"$1\" ]
}
while read -r signal target session free; do
  if [ \"$session\" = - ] || is_in \"$target\" \"$session\"; then
    [ \"$free\" != - ] && [ -e \"/proc/$free\" ] || kill -s \"$signal\" -- \"$target\"
  fi
  echo
done";

/// A shell of this host that sends signals.
#[derive(Drop)]
pub struct HostSignaller<'a> {
    shell: HostShell<'a>,
}

impl<'a> Shell for HostSignaller<'a> {
    ghost ended = { λ s. s.shell.ended };

    fn number(&self) -> u32 {
        self.shell.number()
    }

    fn hear(&mut self, room: &mut [u8]) -> io::Result<usize> {
        self.shell.hear(room)
    }

    fn look(&mut self) -> io::Result<Option<Ending>> {
        self.shell.look()
    }

    fn kill(&mut self) -> io::Result<()> {
        self.shell.kill()
    }
}

/// The number that no process may have where a session is ended, as a word for the shell.
fn free_number(alloc: Global, number: u32, is_reaped: bool) -> Result<String, AllocError> {
    if is_reaped {
        format!(in alloc; "{number}")
    } else {
        String::from_str(alloc, "-")
    }
}

impl<'a> Signals for HostShells<'a> {
    type Child = HostChild;

    type Signaller = HostSignaller<'a>;

    fn start_signaller(&mut self) -> io::Result<HostSignaller<'a>> {
        let shell = HostShell::of(self.rt, spawned(self.rt, SCRIPT, &[])?)?;
        Ok(HostSignaller { shell })
    }

    fn tell_first(
        &self,
        shell: &mut HostSignaller<'a>,
        child: &HostChild,
    ) -> Result<io::Result<bool>, AllocError> {
        let number = child.number();
        let line = format!(in self.rt.alloc(); "TERM {number} - -\n")?;
        Ok(shell.shell.is_told(line.as_str()))
    }

    fn tell_group(
        &self,
        shell: &mut HostSignaller<'a>,
        child: &HostChild,
    ) -> Result<io::Result<bool>, AllocError> {
        let number = child.number();
        let line = format!(in self.rt.alloc(); "TERM -{number} - -\n")?;
        Ok(shell.shell.is_told(line.as_str()))
    }

    fn end_group(
        &self,
        shell: &mut HostSignaller<'a>,
        child: &HostChild,
        is_reaped: bool,
    ) -> Result<io::Result<bool>, AllocError> {
        let alloc = self.rt.alloc();
        let number = child.number();
        let free = free_number(alloc, number, is_reaped)?;
        let line = format!(in alloc; "KILL -{number} - {free}\n")?;
        Ok(shell.shell.is_told(line.as_str()))
    }

    fn end_process(
        &self,
        shell: &mut HostSignaller<'a>,
        child: &HostChild,
        process: u32,
        is_reaped: bool,
    ) -> Result<io::Result<bool>, AllocError> {
        let alloc = self.rt.alloc();
        let number = child.number();
        let free = free_number(alloc, number, is_reaped)?;
        let line = format!(in alloc; "KILL {process} {number} {free}\n")?;
        Ok(shell.shell.is_told(line.as_str()))
    }
}
