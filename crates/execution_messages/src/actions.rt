//! Actions and commands, as blobs have them.

use reapi_messages::Digest;

/// `google.protobuf.Duration`, as it was sent: nothing is checked.
#[derive(Clone, Copy, Debug)]
pub struct Duration {
    pub seconds: i64,
    /// Nanoseconds beside the seconds: 0 to 999,999,999 of a length of time that is not negative.
    pub nanos: i32,
}

/// `build.bazel.remote.execution.v2.Action`, as it was sent: nothing is checked.
#[derive(Clone, Copy, Debug)]
pub struct Action<'a> {
    /// Of the text of a `Command`.
    pub command_digest: Option<Digest<'a>>,
    /// Of the text of a `Directory`.
    pub input_root_digest: Option<Digest<'a>>,
    /// How long it may run.
    pub timeout: Option<Duration>,
    /// Whether its result is not to be stored.
    pub do_not_cache: bool,
}

/// `build.bazel.remote.execution.v2.Command.EnvironmentVariable`.
#[derive(Clone, Copy, Debug)]
pub struct EnvironmentVariable<'a> {
    pub name: &'a str,
    pub value: &'a str,
}

/// `build.bazel.remote.execution.v2.Command`, as it was sent: nothing is checked.
#[derive(Drop, Debug)]
pub struct Command<'a> {
    /// The program, and then what it is given.
    pub arguments: Vec<&'a str>,
    pub environment_variables: Vec<EnvironmentVariable<'a>>,
    pub output_files: Vec<&'a str>,
    pub output_directories: Vec<&'a str>,
    /// Where it is run, as a path from the root of its input; empty for the root.
    pub working_directory: &'a str,
    /// Files and directories; newer clients write these in the place of the two lists above.
    pub output_paths: Vec<&'a str>,
}
