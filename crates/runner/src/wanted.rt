//! What is wanted of a program that is to run.

ghost use Rattle.std.specs.Prelude.{◌≡◌, [], ◌∷◌, ◌++◌, OnOk};

use run_calls::Streams;
use std::alloc::AllocError;
use std::collections::VecDeque;
use std::marker::Model;

/// The outputs that are wanted of a program, with room for what it writes: none is to be asked for
/// once it has run.
pub(crate) struct Wanted {
    /// Their paths, in the order asked for.
    paths: VecDeque<String>,
    streams: Box<Streams>,
}

// Written out, so that each exit of a function that owns it has one call in place of one for each
// part.
impl Drop for Wanted {
    fn drop(self) {
        let Wanted { paths, streams } = self;
        drop(paths);
        drop(streams);
    }
}

impl Model for Wanted {
    ghost use Rattle.std.specs.Global.{Global};
    ghost use Rattle.std.specs.declared.string.String.{String};
    ghost use Rattle.std.specs.declared.collections.VecDeque.{VecDeque};

    ghost Value = { VecDeque (String Global) Global };

    ghost view = { λ w. w.paths };
}

impl Wanted {
    /// Outputs, and room.
    pub(crate) fn new(paths: VecDeque<String>, streams: Box<Streams>) -> Wanted
        ensures { result ≡ paths }
    {
        Wanted { paths, streams }
    }

    /// The paths, and the room with none. It takes no memory.
    pub(crate) fn parted(self) -> (VecDeque<String>, Wanted)
        ensures paths { result.0 ≡ self }
        ensures none { result.1.items ≡ [] }
    {
        let Wanted { paths, streams } = self;
        let none = VecDeque::new(*paths.allocator());
        let rest = Wanted {
            paths: none,
            streams,
        };
        (paths, rest)
    }

    /// Adds a path that follows.
    pub(crate) fn push_back(&mut self, path: String) -> Result<(), AllocError>
        ensures items { OnOk result (self.new.items ≡ self.old.items ++ path ∷ []) }
    {
        self.paths.push_back(path)?;
        Ok(())
    }

    /// The paths, and what the program wrote, put into the room. It takes no memory.
    pub(crate) fn written(self, streams: Streams) -> (VecDeque<String>, Box<Streams>)
        ensures paths { result.0 ≡ self }
        ensures streams { result.1.value ≡ streams }
    {
        let Wanted {
            paths,
            streams: mut room,
        } = self;
        *room = streams;
        (paths, room)
    }
}
