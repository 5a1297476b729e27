//! Why an execution ends without a result.

ghost use Rattle.std.specs.Prelude.{◌≡◌, pos};
ghost use Rattle.execution_messages.specs.Faults.{code_of, text_of};

/// Why an execution ends without a result.
#[derive(Clone, Copy, PartialEq, Eq, Debug)]
pub enum Fault {
    /// The action's blob does not read as one, or says what is not taken.
    BadAction,
    /// The same of the command's blob.
    BadCommand,
    /// Blobs are not there.
    MissingBlobs,
    /// A directory of the input tree is none that is taken.
    BadDirectory,
    /// The input tree has too many nodes or levels.
    TreeTooLarge,
    /// The outputs have more bytes than the quota.
    QuotaExceeded,
    /// The job came to its deadline.
    TimedOut,
    /// The run failed, or gave what was not asked for.
    RunFailed,
}

impl Fault {
    /// The code of its status.
    pub fn code(self) -> i32
        ensures { result ≡ pos (code_of self) }
    {
        match self {
            Fault::BadAction | Fault::BadCommand | Fault::BadDirectory => 3,
            Fault::TimedOut => 4,
            Fault::TreeTooLarge | Fault::QuotaExceeded => 8,
            Fault::MissingBlobs => 9,
            Fault::RunFailed => 13,
        }
    }

    /// The text of its status.
    pub fn text(self) -> &'static str
        ensures { result.now ≡ text_of self }
    {
        match self {
            Fault::BadAction => "bad action",
            Fault::BadCommand => "bad command",
            Fault::MissingBlobs => "missing blobs",
            Fault::BadDirectory => "bad directory",
            Fault::TreeTooLarge => "tree too large",
            Fault::QuotaExceeded => "quota exceeded",
            Fault::TimedOut => "timed out",
            Fault::RunFailed => "run failed",
        }
    }
}
