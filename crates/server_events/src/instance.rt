//! What a configured instance may be: its name, its quota and its slots.

ghost use Rattle.std.specs.Prelude.{◌≡◌, ◌≤◌, ◌↔◌, IsTrue};
ghost use Rattle.std.specs.List.{list_all, list_any};
ghost use Rattle.std.specs.Str.{bytes_eq};
ghost use Rattle.server_events.specs.Instance.{IsInstanceName, is_instance_name, is_instance_name_byte, resource_words, quota_limit, slots_limit};

/// The most bytes that a name may have.
const NAME_LIMIT: usize = 64;

/// The most bytes that an instance may be given, 2^40.
pub const QUOTA_LIMIT: u64 = 1 << 40;

/// The most actions that an instance may run at once.
pub const SLOTS_LIMIT: u32 = 64;

/// Whether an instance may have this name: 1 to 64 of `a` to `z`, `0` to `9` and `-`, and not one
/// of the words that part a resource name (remote_execution.proto, `instance_name`).
pub fn is_instance_name(name: &[u8]) -> bool
    ensures value { result ≡ is_instance_name name.now }
    ensures exact { IsTrue result ↔ IsInstanceName name.now }
{
    !name.is_empty() && name.len() <= NAME_LIMIT && are_name_bytes(name) && !is_resource_word(name)
}

fn are_name_bytes(name: &[u8]) -> bool
    ensures { result ≡ list_all is_instance_name_byte name.now }
{
    name.iter()
        .all(|byte| matches!(byte, b'a'..=b'z' | b'0'..=b'9' | b'-'))
}

fn is_resource_word(name: &[u8]) -> bool
    ensures { result ≡ list_any (bytes_eq name.now) resource_words }
{
    name == b"blobs".as_slice()
        || name == b"uploads".as_slice()
        || name == b"actions".as_slice()
        || name == b"actionResults".as_slice()
        || name == b"operations".as_slice()
        || name == b"capabilities".as_slice()
        || name == b"compressed-blobs".as_slice()
}

/// Whether an instance may be given this many bytes.
pub fn is_quota(quota: u64) -> bool
    ensures { IsTrue result ↔ (quota ≤ quota_limit) }
{
    quota <= QUOTA_LIMIT
}

/// Whether an instance may run this many actions at once. With 0 it runs none.
pub fn is_slot_count(slots: u32) -> bool
    ensures { IsTrue result ↔ (slots ≤ slots_limit) }
{
    slots <= SLOTS_LIMIT
}
