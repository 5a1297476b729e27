//! The methods that a script may call.
ghost use Rattle.std.specs.Prelude.{◌≡◌};

/// A method of the service ContentAddressableStorage (remote_execution.proto).
#[derive(Clone, Copy, Debug)]
pub enum Method {
    /// Which of some blobs are not stored.
    FindMissingBlobs,
    /// Stores some blobs.
    BatchUpdateBlobs,
    /// Gives some blobs.
    BatchReadBlobs,
}

impl Method {
    ghost use Rattle.script.specs.Method.{method_name, method_named};

    /// The method's name in the service.
    pub fn name(self) -> &'static str
        ensures { result.now ≡ method_name self }
    {
        match self {
            Method::FindMissingBlobs => "FindMissingBlobs",
            Method::BatchUpdateBlobs => "BatchUpdateBlobs",
            Method::BatchReadBlobs => "BatchReadBlobs",
        }
    }

    /// The method of this name.
    pub fn named(name: &[u8]) -> Option<Method>
        ensures { result ≡ method_named name.now }
    {
        [
            Method::FindMissingBlobs,
            Method::BatchUpdateBlobs,
            Method::BatchReadBlobs,
        ]
        .into_iter()
        .find(|method| name == method.name().as_bytes())
    }
}
