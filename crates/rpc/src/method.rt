//! The methods that are known.

ghost use Rattle.std.specs.Prelude.{◌≡◌};
ghost use Rattle.rpc.specs.Methods.{path_of, method_in, method_at};

/// A method of the remote execution services, or of the byte stream service.
#[derive(Clone, Copy, Debug, PartialEq, Eq)]
pub enum Method {
    FindMissingBlobs,
    BatchUpdateBlobs,
    BatchReadBlobs,
    GetTree,
    GetActionResult,
    UpdateActionResult,
    Execute,
    WaitExecution,
    GetCapabilities,
    Read,
    Write,
    QueryWriteStatus,
}

const METHODS: [Method; 12] = [
    Method::FindMissingBlobs,
    Method::BatchUpdateBlobs,
    Method::BatchReadBlobs,
    Method::GetTree,
    Method::GetActionResult,
    Method::UpdateActionResult,
    Method::Execute,
    Method::WaitExecution,
    Method::GetCapabilities,
    Method::Read,
    Method::Write,
    Method::QueryWriteStatus,
];

impl Method {
    /// The value of `:path` in a call of the method.
    pub fn path(self) -> &'static [u8]
        ensures { result.now ≡ path_of self }
    {
        match self {
            Method::FindMissingBlobs => {
                b"/build.bazel.remote.execution.v2.ContentAddressableStorage/FindMissingBlobs"
            }
            Method::BatchUpdateBlobs => {
                b"/build.bazel.remote.execution.v2.ContentAddressableStorage/BatchUpdateBlobs"
            }
            Method::BatchReadBlobs => {
                b"/build.bazel.remote.execution.v2.ContentAddressableStorage/BatchReadBlobs"
            }
            Method::GetTree => {
                b"/build.bazel.remote.execution.v2.ContentAddressableStorage/GetTree"
            }
            Method::GetActionResult => {
                b"/build.bazel.remote.execution.v2.ActionCache/GetActionResult"
            }
            Method::UpdateActionResult => {
                b"/build.bazel.remote.execution.v2.ActionCache/UpdateActionResult"
            }
            Method::Execute => b"/build.bazel.remote.execution.v2.Execution/Execute",
            Method::WaitExecution => b"/build.bazel.remote.execution.v2.Execution/WaitExecution",
            Method::GetCapabilities => {
                b"/build.bazel.remote.execution.v2.Capabilities/GetCapabilities"
            }
            Method::Read => b"/google.bytestream.ByteStream/Read",
            Method::Write => b"/google.bytestream.ByteStream/Write",
            Method::QueryWriteStatus => b"/google.bytestream.ByteStream/QueryWriteStatus",
        }
    }

    /// The method that has the path, if one has.
    #[tactic(auto, unfolding(crate::specs::Methods::method_at))]
    pub fn from_path(path: &[u8]) -> Option<Method>
        ensures { result ≡ method_at path.now }
    {
        method_in(&METHODS, path)
    }
}

fn method_in(methods: &[Method], path: &[u8]) -> Option<Method>
    ensures { result ≡ method_in methods.now path.now }
{
    let mut left = methods;
    'methods: while let [method, rest @ ..] = left {
        if method.path() == path {
            return Some(*method);
        }
        left = rest;
    }
    None
}
