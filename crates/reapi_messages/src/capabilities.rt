//! GetCapabilities of the Capabilities service. Fields that are not named here are skipped.

ghost use Rattle.std.specs.Prelude.{◌≡◌};

use protobuf_wire::{
    Decode, Field, Message, MessageError, Writer, put_embedded, put_flag, put_int32, put_int64,
    put_repeated_enum, put_string, string,
};
use std::alloc::{AllocError, Global};

/// `build.bazel.remote.execution.v2.GetCapabilitiesRequest`.
#[derive(Clone, Copy, Debug)]
pub struct GetCapabilitiesRequest<'a> {
    pub instance_name: &'a str,
}

impl Message for GetCapabilitiesRequest<'_> {
    ghost use Rattle.reapi_messages.specs.Capabilities.{GetCapabilitiesRequestValue, get_capabilities_request_shown, get_capabilities_request_of, get_capabilities_request_records};

    ghost Value = { GetCapabilitiesRequestValue };

    ghost shown = { get_capabilities_request_shown };

    ghost value_of = { get_capabilities_request_of };

    ghost records_for = { get_capabilities_request_records };

    #[tactic(auto, using(crate::proofs::Texts::written_more))]
    fn write(&self, writer: &mut Writer) -> Result<(), AllocError> {
        put_string(writer, 1, self.instance_name)
    }
}

impl<'a> Decode<'a> for GetCapabilitiesRequest<'a> {
    #[tactic(auto, unfolding(crate::specs::Capabilities::get_capabilities_request_of))]
    fn of_fields(_alloc: Global, fields: &[Field<'a>]) -> Result<Self, MessageError> {
        Ok(GetCapabilitiesRequest {
            instance_name: string(fields, 1)?,
        })
    }
}

/// `build.bazel.semver.SemVer`.
#[derive(Clone, Copy, Debug)]
pub struct SemVer {
    pub major: i32,
    pub minor: i32,
}

impl Message for SemVer {
    ghost use Rattle.reapi_messages.specs.Capabilities.{SemVerValue, sem_ver_shown, sem_ver_of, sem_ver_records};

    ghost Value = { SemVerValue };

    ghost shown = { sem_ver_shown };

    ghost value_of = { sem_ver_of };

    ghost records_for = { sem_ver_records };

    #[tactic(auto, using(crate::proofs::Texts::written_more))]
    fn write(&self, writer: &mut Writer) -> Result<(), AllocError> {
        put_int32(writer, 1, self.major)?;
        put_int32(writer, 2, self.minor)
    }
}

/// `build.bazel.remote.execution.v2.ActionCacheUpdateCapabilities`.
#[derive(Clone, Copy, Debug)]
pub struct ActionCacheUpdateCapabilities {
    pub update_enabled: bool,
}

impl Message for ActionCacheUpdateCapabilities {
    ghost use Rattle.reapi_messages.specs.Capabilities.{ActionCacheUpdateCapabilitiesValue, action_cache_update_capabilities_shown, action_cache_update_capabilities_of, action_cache_update_capabilities_records};

    ghost Value = { ActionCacheUpdateCapabilitiesValue };

    ghost shown = { action_cache_update_capabilities_shown };

    ghost value_of = { action_cache_update_capabilities_of };

    ghost records_for = { action_cache_update_capabilities_records };

    #[tactic(auto, using(crate::proofs::Texts::written_more))]
    fn write(&self, writer: &mut Writer) -> Result<(), AllocError> {
        put_flag(writer, 1, self.update_enabled)
    }
}

/// `build.bazel.remote.execution.v2.CacheCapabilities`.
#[derive(Drop, Debug)]
pub struct CacheCapabilities {
    /// Numbers of the enum `DigestFunction.Value`.
    pub digest_functions: Vec<i32>,
    pub action_cache_update_capabilities: Option<ActionCacheUpdateCapabilities>,
    /// In bytes; 0 where there is no limit of its own.
    pub max_batch_total_size_bytes: i64,
    /// A number of the enum `SymlinkAbsolutePathStrategy.Value`; 1 is DISALLOWED.
    pub symlink_absolute_path_strategy: i32,
}

impl Message for CacheCapabilities {
    ghost use Rattle.reapi_messages.specs.Capabilities.{CacheCapabilitiesValue, cache_capabilities_shown, cache_capabilities_of, cache_capabilities_records};

    ghost Value = { CacheCapabilitiesValue };

    ghost shown = { cache_capabilities_shown };

    ghost value_of = { cache_capabilities_of };

    ghost records_for = { cache_capabilities_records };

    #[tactic(auto, using(crate::proofs::Texts::written_more))]
    fn write(&self, writer: &mut Writer) -> Result<(), AllocError> {
        put_repeated_enum(writer, 1, &self.digest_functions)?;
        put_embedded(writer, 2, &self.action_cache_update_capabilities)?;
        put_int64(writer, 4, self.max_batch_total_size_bytes)?;
        put_int32(writer, 5, self.symlink_absolute_path_strategy)
    }
}

/// `build.bazel.remote.execution.v2.ExecutionCapabilities`.
#[derive(Clone, Copy, Debug)]
pub struct ExecutionCapabilities {
    /// A number of the enum `DigestFunction.Value`.
    pub digest_function: i32,
    pub exec_enabled: bool,
}

impl Message for ExecutionCapabilities {
    ghost use Rattle.reapi_messages.specs.Capabilities.{ExecutionCapabilitiesValue, execution_capabilities_shown, execution_capabilities_of, execution_capabilities_records};

    ghost Value = { ExecutionCapabilitiesValue };

    ghost shown = { execution_capabilities_shown };

    ghost value_of = { execution_capabilities_of };

    ghost records_for = { execution_capabilities_records };

    #[tactic(auto, using(crate::proofs::Texts::written_more))]
    fn write(&self, writer: &mut Writer) -> Result<(), AllocError> {
        put_int32(writer, 1, self.digest_function)?;
        put_flag(writer, 2, self.exec_enabled)
    }
}

/// `build.bazel.remote.execution.v2.ServerCapabilities`.
#[derive(Drop, Debug)]
pub struct ServerCapabilities {
    pub cache_capabilities: Option<CacheCapabilities>,
    pub execution_capabilities: Option<ExecutionCapabilities>,
    pub low_api_version: Option<SemVer>,
    pub high_api_version: Option<SemVer>,
}

impl Message for ServerCapabilities {
    ghost use Rattle.reapi_messages.specs.Capabilities.{ServerCapabilitiesValue, server_capabilities_shown, server_capabilities_of, server_capabilities_records};

    ghost Value = { ServerCapabilitiesValue };

    ghost shown = { server_capabilities_shown };

    ghost value_of = { server_capabilities_of };

    ghost records_for = { server_capabilities_records };

    #[tactic(auto, using(crate::proofs::Texts::written_more))]
    fn write(&self, writer: &mut Writer) -> Result<(), AllocError> {
        put_embedded(writer, 1, &self.cache_capabilities)?;
        put_embedded(writer, 2, &self.execution_capabilities)?;
        put_embedded(writer, 4, &self.low_api_version)?;
        put_embedded(writer, 5, &self.high_api_version)
    }
}
