//! How a resource name is read.

ghost use Rattle.std.specs.Prelude.{◌≡◌, ◌<◌, ◌≤◌, ◌∷◌, [], length, IfOk, OnErr, IfErr};
ghost use Rattle.std.specs.Option.{option_copied};
ghost use Rattle.resource_names.specs.Names as names;
ghost use Rattle.resource_names.specs.Names.{Gives, read_name, write_name, digest_of_segments, instance_of, compression_check, upload_compression_check, upload_named};
ghost use Rattle.resource_names.specs.Size.{size_limit};
ghost use Rattle.resource_names.specs.Segments.{segments_left};
ghost use Rattle.resource_names.specs.Shown.{read_name_shown, write_name_shown};
ghost use Rattle.resource_names.specs.declared.name.NameError.TheVariants.{Form};

use crate::name::{NameError, ReadName, WriteName};
use crate::segments::{Divider, divide, first_segment};
use crate::size::size;
use digest::Digest;

/// The most bytes of a uuid.
pub const MOST_UUID: usize = 128;

/// The next segment, and what follows it.
fn next_segment(left: Option<&str>) -> Result<(&str, Option<&str>), NameError>
    ensures ok { IfOk result (λ next. segments_left left.entry
        ≡ next.0.now ∷ segments_left next.1) }
    ensures err { OnErr result (segments_left left.entry ≡ []) }
    ensures form { IfErr result (λ e. e ≡ Form) }
{
    match left {
        Some(text) => Ok(first_segment(text)),
        None => Err(NameError::Form),
    }
}

/// Compressed bytes are not served.
fn check_uncompressed(segment: &str) -> Result<(), NameError>
    ensures { result ≡ compression_check segment.now }
{
    if segment == "compressed-blobs" {
        return Err(NameError::Compressed);
    }
    Ok(())
}

/// The instance's name, of what stands before its slash.
fn instance(before: Option<&str>) -> Result<&str, NameError>
    ensures { Gives (λ name. name.now) result (instance_of (option_copied before.entry)) }
{
    match before {
        None => Ok(""),
        Some("") => Err(NameError::Form),
        Some(name) => Ok(name),
    }
}

/// The digest that two segments write.
#[tactic(auto, unfolding(crate::specs::Names::digest_of_segments))]
fn digest(hash: &str, size_text: &str) -> Result<Digest, NameError>
    ensures value { result ≡ digest_of_segments hash.now size_text.now }
    ensures most { IfOk result (λ digest. digest.size < size_limit) }
{
    let digest = Digest::parse(hash, 0).ok_or(NameError::Hash)?;
    let size = size(size_text).ok_or(NameError::Size)?;
    Ok(Digest { size, ..digest })
}

/// The digest of a name that ends with it.
fn digest_alone(left: Option<&str>) -> Result<Digest, NameError>
    ensures value { result ≡ names.digest_alone (segments_left left.entry) }
    ensures most { IfOk result (λ digest. digest.size < size_limit) }
{
    let (hash, left) = next_segment(left)?;
    let (size, left) = next_segment(left)?;
    if next_segment(left).is_ok() {
        return Err(NameError::Form);
    }
    digest(hash, size)
}

/// Reads the `resource_name` of a `Read` or refuses it for the first of these: it names compressed
/// bytes, it has not the form, its hash, its size.
#[tactic(auto, unfolding(crate::specs::Names::read_name))]
pub fn parse_read(text: &str) -> Result<ReadName<'_>, NameError>
    ensures name { Gives read_name_shown result (read_name text.now) }
    ensures most { IfOk result (λ name. name.digest.size < size_limit) }
{
    let division = divide(text, Divider::Blobs).ok_or(NameError::Form)?;
    check_uncompressed(division.segment)?;
    let instance = instance(division.before)?;
    let digest = digest_alone(division.after)?;
    Ok(ReadName { instance, digest })
}

/// Compressed bytes are not served, whatever else a name says.
fn check_uncompressed_upload(left: Option<&str>) -> Result<(), NameError>
    ensures { result ≡ upload_compression_check (segments_left left.entry) }
{
    let Ok((_uuid, left)) = next_segment(left) else {
        return Ok(());
    };
    let Ok((place, _left)) = next_segment(left) else {
        return Ok(());
    };
    check_uncompressed(place)
}

/// What stands after `uploads` in a name.
fn upload<'a>(instance: &'a str, left: Option<&'a str>) -> Result<WriteName<'a>, NameError>
    ensures name { Gives write_name_shown result
        (upload_named instance.now (segments_left left.entry)) }
    ensures most { IfOk result (λ name. name.digest.size < size_limit) }
    ensures uuid { IfOk result (λ name. length name.uuid.now ≤ MOST_UUID) }
{
    let (uuid, left) = next_segment(left)?;
    let (place, left) = next_segment(left)?;
    let (hash, left) = next_segment(left)?;
    let (size, _left) = next_segment(left)?;
    if uuid.is_empty() || uuid.len() > MOST_UUID || place != "blobs" {
        return Err(NameError::Form);
    }
    let digest = digest(hash, size)?;
    Ok(WriteName {
        instance,
        uuid,
        digest,
    })
}

/// Reads the `resource_name` of a `Write` or a `QueryWriteStatus`, or refuses it for the first of
/// these: it names compressed bytes, it has not the form, its hash, its size.
#[tactic(auto, unfolding(crate::specs::Names::write_name))]
pub fn parse_write(text: &str) -> Result<WriteName<'_>, NameError>
    ensures name { Gives write_name_shown result (write_name text.now) }
    ensures most { IfOk result (λ name. name.digest.size < size_limit) }
    ensures uuid { IfOk result (λ name. length name.uuid.now ≤ MOST_UUID) }
{
    let division = divide(text, Divider::Uploads).ok_or(NameError::Form)?;
    check_uncompressed_upload(division.after)?;
    let instance = instance(division.before)?;
    upload(instance, division.after)
}
