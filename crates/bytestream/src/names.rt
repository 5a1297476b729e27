//! Names of byte streams, with the refusals of those that are none.

ghost use Rattle.std.specs.Prelude.{◌≡◌, ◌<◌, ◌≤◌, length, IfOk};
ghost use Rattle.reapi_messages.specs.Results.{Gives};
ghost use Rattle.resource_names.specs.Names as names;
ghost use Rattle.resource_names.specs.Size.{size_limit};
ghost use Rattle.resource_names.specs.Shown.{read_name_shown, write_name_shown};
ghost use Rattle.bytestream.specs.Refusals.{name_or_refusal, name_refusal};
ghost use Rattle.resource_names.specs.declared.parse.TheConstants.{MOST_UUID};

use resource_names::{NameError, ReadName, WriteName, parse_read, parse_write};
use rpc::Refusal;

fn refusal(error: NameError) -> Refusal
    ensures { result ≡ name_refusal error }
{
    match error {
        NameError::Form => Refusal::BadResourceName,
        NameError::Hash | NameError::Size => Refusal::BadDigest,
        NameError::Compressed => Refusal::UnsupportedCompressor,
    }
}

/// What a `Read` names.
pub(crate) fn read_name(text: &str) -> Result<ReadName<'_>, Refusal>
    ensures { Gives read_name_shown result (name_or_refusal (names.read_name text.now)) }
{
    match parse_read(text) {
        Ok(name) => Ok(name),
        Err(error) => Err(refusal(error)),
    }
}

/// What a `Write` or a `QueryWriteStatus` names.
pub(crate) fn write_name(text: &str) -> Result<WriteName<'_>, Refusal>
    ensures name { Gives write_name_shown result (name_or_refusal (names.write_name text.now)) }
    ensures most { IfOk result (λ name. name.digest.size < size_limit) }
    ensures uuid { IfOk result (λ name. length name.uuid.now ≤ MOST_UUID) }
{
    match parse_write(text) {
        Ok(name) => Ok(name),
        Err(error) => Err(refusal(error)),
    }
}
