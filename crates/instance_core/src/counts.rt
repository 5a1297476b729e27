//! The counts.

ghost use Rattle.std.specs.Prelude.{◌≡◌, ◌≢◌, ◌<◌, ◌≤◌, true, false};
ghost use Rattle.rpc.specs.declared.method.Method.TheVariants.{Execute};
ghost use Rattle.instance_core.specs.declared.counts.TheConstants.{METHODS, STATUSES};
ghost use Rattle.instance_core.specs.Counts.{more, of_method, place_of as place_of_method, with_end, with_method, with_received, with_sent};

use rpc::Method;

/// How many gRPC status codes there are: they go from 0 to 16.
pub const STATUSES: usize = 17;

const METHODS: usize = 12;

/// How many calls of one method ended with each status, and how many bytes their messages had.
/// Each count stays at 2^64 - 1 where it were more.
#[derive(Clone, Copy, Debug, PartialEq, Eq)]
pub struct MethodCounts {
    /// At the place of each gRPC status code.
    pub ended: [u64; STATUSES],
    /// Of requests.
    pub bytes_received: u64,
    /// Of replies.
    pub bytes_sent: u64,
}

/// What calls came to, of all methods.
#[derive(Clone, Copy, Debug, PartialEq, Eq)]
pub struct CallCounts {
    methods: [MethodCounts; METHODS],
    /// Calls of `Execute` that were answered from the results.
    pub executions_from_cache: u64,
    /// Calls of `Execute` whose action waits or runs since.
    pub executions_queued: u64,
}

const NOTHING: MethodCounts = MethodCounts {
    ended: [0; STATUSES],
    bytes_received: 0,
    bytes_sent: 0,
};

fn place_of(method: Method) -> usize
    ensures place { result ≡ place_of_method method }
    ensures there { result < METHODS }
{
    match method {
        Method::FindMissingBlobs => 0,
        Method::BatchUpdateBlobs => 1,
        Method::BatchReadBlobs => 2,
        Method::GetTree => 3,
        Method::GetActionResult => 4,
        Method::UpdateActionResult => 5,
        Method::Execute => 6,
        Method::WaitExecution => 7,
        Method::GetCapabilities => 8,
        Method::Read => 9,
        Method::Write => 10,
        Method::QueryWriteStatus => 11,
    }
}

impl CallCounts {
    /// No calls yet.
    pub fn new() -> CallCounts {
        CallCounts {
            methods: [NOTHING; METHODS],
            executions_from_cache: 0,
            executions_queued: 0,
        }
    }

    /// The counts of a method.
    pub fn of(&self, method: Method) -> &MethodCounts
        ensures { result.now ≡ of_method method self.now }
    {
        &self.methods[place_of(method)]
    }

    /// A call of the method ended with a gRPC status code. There is no code above 16: then nothing
    /// is counted.
    pub fn add_end(&mut self, method: Method, code: usize)
        ensures counted { code < STATUSES
            → self.new ≡ with_method method (with_end code) self.old }
        ensures none { STATUSES ≤ code → self.new ≡ self.old }
    {
        if code < STATUSES {
            let ended = &mut self.methods[place_of(method)].ended;
            ended[code] = ended[code].saturating_add(1);
        }
    }

    /// A message of a request came.
    pub fn add_received(&mut self, method: Method, bytes: usize)
        ensures { self.new ≡ with_method method (with_received bytes) self.old }
    {
        let counts = &mut self.methods[place_of(method)];
        counts.bytes_received = counts.bytes_received.saturating_add(bytes as u64);
    }

    /// A message of a reply was given.
    pub fn add_sent(&mut self, method: Method, bytes: u64)
        ensures { self.new ≡ with_method method (with_sent bytes) self.old }
    {
        let counts = &mut self.methods[place_of(method)];
        counts.bytes_sent = counts.bytes_sent.saturating_add(bytes);
    }

    /// A call was answered from what is stored, or its action waits or runs since. Only calls of
    /// `Execute` are counted.
    pub fn add_execution(&mut self, method: Method, is_from_cache: bool)
        ensures other { method ≢ Execute → self.new ≡ self.old }
        ensures answered { method ≡ Execute → is_from_cache ≡ true → self.new
            ≡ record self.old { executions_from_cache = more 1 self.old.executions_from_cache } }
        ensures queued { method ≡ Execute → is_from_cache ≡ false → self.new
            ≡ record self.old { executions_queued = more 1 self.old.executions_queued } }
    {
        if method != Method::Execute {
            return;
        }
        if is_from_cache {
            self.executions_from_cache = self.executions_from_cache.saturating_add(1);
        } else {
            self.executions_queued = self.executions_queued.saturating_add(1);
        }
    }
}
