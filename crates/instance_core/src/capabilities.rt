//! `GetCapabilities`: what the server offers.

ghost use Rattle.std.specs.Prelude.{◌≡◌, IfOk};
ghost use Rattle.reapi_messages.specs.Capabilities.{sem_ver_shown, cache_capabilities_shown, execution_capabilities_shown, server_capabilities_shown};
ghost use Rattle.cas_service.specs.Answers.{Answers};
ghost use Rattle.instance_core.specs.Capabilities.{version, cache, execution, capabilities, capabilities_message, capabilities_asked, get_capabilities_reply};

use cas_service::{CallError, MOST_BATCH_BYTES, check_instance};
use reapi_messages::{
    ActionCacheUpdateCapabilities, CacheCapabilities, Decode, ExecutionCapabilities,
    GetCapabilitiesRequest, Message, SemVer, ServerCapabilities,
};
use std::alloc::{AllocError, Global};

/// A number of the enum `DigestFunction.Value`.
const SHA256: i32 = 1;

/// A number of the enum `DigestFunction.Value`.
const SHA512: i32 = 6;

/// A number of the enum `SymlinkAbsolutePathStrategy.Value`.
const DISALLOWED: i32 = 1;

/// The version of the interface that is served.
fn version() -> SemVer
    ensures { sem_ver_shown result ≡ version }
{
    SemVer { major: 2, minor: 0 }
}

/// What is offered of the cache.
fn cache(alloc: Global) -> Result<CacheCapabilities, AllocError>
    ensures { IfOk result (λ offered. cache_capabilities_shown offered ≡ cache) }
{
    let mut digest_functions = Vec::new(alloc);
    digest_functions.push(SHA256)?;
    digest_functions.push(SHA512)?;
    Ok(CacheCapabilities {
        digest_functions,
        action_cache_update_capabilities: Some(ActionCacheUpdateCapabilities {
            update_enabled: true,
        }),
        max_batch_total_size_bytes: MOST_BATCH_BYTES as i64,
        symlink_absolute_path_strategy: DISALLOWED,
    })
}

/// What is offered of the running of actions.
fn execution(slots: u32) -> ExecutionCapabilities
    ensures { execution_capabilities_shown result ≡ execution slots }
{
    ExecutionCapabilities {
        digest_function: SHA256,
        exec_enabled: slots > 0,
    }
}

/// What the server offers.
fn capabilities(alloc: Global, slots: u32) -> Result<ServerCapabilities, AllocError>
    ensures { IfOk result (λ offered. server_capabilities_shown offered ≡ capabilities slots) }
{
    let cache = cache(alloc)?;
    Ok(ServerCapabilities {
        cache_capabilities: Some(cache),
        execution_capabilities: Some(execution(slots)),
        low_api_version: Some(version()),
        high_api_version: Some(version()),
    })
}

/// The message that says what the server offers.
fn capabilities_message(alloc: Global, slots: u32) -> Result<Vec<u8>, AllocError>
    ensures { IfOk result (λ reply. reply.items ≡ capabilities_message slots) }
{
    let offered = capabilities(alloc, slots)?;
    offered.encode(alloc)
}

/// The request has to read as one, and to name the own instance.
#[tactic(auto, unfolding(crate::specs::Capabilities::capabilities_asked))]
fn check_request(alloc: Global, own: &str, message: &[u8]) -> Result<(), CallError>
    ensures { Answers (λ asked. asked) result (capabilities_asked own.now message.now) }
{
    let request = GetCapabilitiesRequest::decode(alloc, message)?;
    check_instance(own, request.instance_name)?;
    Ok(())
}

/// Answers `GetCapabilities`: what the server offers, where the instance has so many slots.
pub fn get_capabilities(
    alloc: Global,
    own: &str,
    slots: u32,
    message: &[u8],
) -> Result<Vec<u8>, CallError>
    ensures { Answers (λ reply. reply.items) result
        (get_capabilities_reply own.now slots message.now) }
{
    check_request(alloc, own, message)?;
    let reply = capabilities_message(alloc, slots)?;
    Ok(reply)
}
