//! Shells that send signals to programs that were started here.

ghost use Rattle.std.specs.Prelude.{◌≡◌, ◌≤◌, None, IfOk, false};

use crate::programs::Child;
use crate::shells::{Shell, Shells};
use std::alloc::AllocError;
use std::io;

/// Starts shells that send signals, and tells them to whom. They are told nothing else: each call
/// tells one line, and says whether it was told whole.
///
/// No signal is sent but to a program that was started here, to its group, and to what was found in
/// its session. Whether its number may have been given anew has to be said.
pub trait Signals: Shells {
    ghost use Rattle.system.specs.Processes.{WasIn};

    type Child: Child;

    type Signaller: Shell;

    /// Starts a shell that sends signals. It writes one byte for each line that it is told.
    fn start_signaller(&mut self) -> io::Result<Self::Signaller>
        ensures runs { IfOk result (λ shell. Self.Signaller.ended shell ≡ None) };

    /// Tells it to have a program end by itself.
    fn tell_first(
        &self,
        shell: &mut Self::Signaller,
        child: &Self::Child,
    ) -> Result<io::Result<bool>, AllocError>
        requires number { 2 ≤ Self.Child.number child.now }
        requires own { Self.Child.ended child.now ≡ None }
        ensures ended { Self.Signaller.ended shell.new ≡ Self.Signaller.ended shell.old };

    /// The same of the group of its number.
    fn tell_group(
        &self,
        shell: &mut Self::Signaller,
        child: &Self::Child,
    ) -> Result<io::Result<bool>, AllocError>
        requires number { 2 ≤ Self.Child.number child.now }
        requires own { Self.Child.ended child.now ≡ None }
        ensures ended { Self.Signaller.ended shell.new ≡ Self.Signaller.ended shell.old };

    /// Tells it to end the group of a program's number. Where the program was waited for, the shell
    /// looks right before that no process has its number.
    fn end_group(
        &self,
        shell: &mut Self::Signaller,
        child: &Self::Child,
        is_reaped: bool,
    ) -> Result<io::Result<bool>, AllocError>
        requires number { 2 ≤ Self.Child.number child.now }
        requires own { is_reaped ≡ false → Self.Child.ended child.now ≡ None }
        ensures ended { Self.Signaller.ended shell.new ≡ Self.Signaller.ended shell.old };

    /// Tells it to end a process that was found in a program's session. The shell looks right before
    /// that it is in that session, and where the program was waited for, that no process has its
    /// number.
    fn end_process(
        &self,
        shell: &mut Self::Signaller,
        child: &Self::Child,
        process: u32,
        is_reaped: bool,
    ) -> Result<io::Result<bool>, AllocError>
        requires number { 2 ≤ Self.Child.number child.now }
        requires own { is_reaped ≡ false → Self.Child.ended child.now ≡ None }
        requires found { WasIn Self.showed (Self.Child.number child.now) process }
        ensures ended { Self.Signaller.ended shell.new ≡ Self.Signaller.ended shell.old };
}
