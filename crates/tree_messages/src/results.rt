//! Results of actions.

ghost use Rattle.std.specs.Prelude.{◌≡◌};

use protobuf_wire::{
    Decode, Field, Message, MessageError, Writer, embedded, flag, int32, octets, put_embedded,
    put_flag, put_int32, put_octets, put_repeated, put_string, repeated, string,
};
use reapi_messages::Digest;
use std::alloc::{AllocError, Global};

/// `build.bazel.remote.execution.v2.OutputFile`.
#[derive(Clone, Copy, Debug)]
pub struct OutputFile<'a> {
    pub path: &'a str,
    pub digest: Option<Digest<'a>>,
    pub is_executable: bool,
}

impl Message for OutputFile<'_> {
    ghost use Rattle.tree_messages.specs.Results.{OutputFileValue, output_file_shown, output_file_of, output_file_records};

    ghost Value = { OutputFileValue };

    ghost shown = { output_file_shown };

    ghost value_of = { output_file_of };

    ghost records_for = { output_file_records };

    #[tactic(auto, using(crate::proofs::Texts::written_more))]
    fn write(&self, writer: &mut Writer) -> Result<(), AllocError> {
        put_string(writer, 1, self.path)?;
        put_embedded(writer, 2, &self.digest)?;
        put_flag(writer, 4, self.is_executable)
    }
}

impl<'a> Decode<'a> for OutputFile<'a> {
    #[tactic(auto, unfolding(crate::specs::Results::output_file_of))]
    fn of_fields(alloc: Global, fields: &[Field<'a>]) -> Result<Self, MessageError> {
        Ok(OutputFile {
            path: string(fields, 1)?,
            digest: embedded(alloc, fields, 2)?,
            is_executable: flag(fields, 4),
        })
    }
}

/// `build.bazel.remote.execution.v2.OutputDirectory`.
#[derive(Clone, Copy, Debug)]
pub struct OutputDirectory<'a> {
    pub path: &'a str,
    /// Of the text of a `Tree`.
    pub tree_digest: Option<Digest<'a>>,
}

impl Message for OutputDirectory<'_> {
    ghost use Rattle.tree_messages.specs.Results.{OutputDirectoryValue, output_directory_shown, output_directory_of, output_directory_records};

    ghost Value = { OutputDirectoryValue };

    ghost shown = { output_directory_shown };

    ghost value_of = { output_directory_of };

    ghost records_for = { output_directory_records };

    #[tactic(auto, using(crate::proofs::Texts::written_more))]
    fn write(&self, writer: &mut Writer) -> Result<(), AllocError> {
        put_string(writer, 1, self.path)?;
        put_embedded(writer, 3, &self.tree_digest)
    }
}

impl<'a> Decode<'a> for OutputDirectory<'a> {
    #[tactic(auto, unfolding(crate::specs::Results::output_directory_of))]
    fn of_fields(alloc: Global, fields: &[Field<'a>]) -> Result<Self, MessageError> {
        Ok(OutputDirectory {
            path: string(fields, 1)?,
            tree_digest: embedded(alloc, fields, 3)?,
        })
    }
}

/// `build.bazel.remote.execution.v2.ActionResult`, as it was sent: nothing is checked.
#[derive(Drop, Debug)]
pub struct ActionResult<'a> {
    pub output_files: Vec<OutputFile<'a>>,
    pub output_directories: Vec<OutputDirectory<'a>>,
    pub exit_code: i32,
    pub stdout_raw: &'a [u8],
    pub stdout_digest: Option<Digest<'a>>,
    pub stderr_raw: &'a [u8],
    pub stderr_digest: Option<Digest<'a>>,
}

impl Message for ActionResult<'_> {
    ghost use Rattle.tree_messages.specs.Results.{ActionResultValue, action_result_shown, action_result_of, action_result_records};

    ghost Value = { ActionResultValue };

    ghost shown = { action_result_shown };

    ghost value_of = { action_result_of };

    ghost records_for = { action_result_records };

    #[tactic(auto, using(crate::proofs::Texts::written_more))]
    fn write(&self, writer: &mut Writer) -> Result<(), AllocError> {
        put_repeated(writer, 2, &self.output_files)?;
        put_repeated(writer, 3, &self.output_directories)?;
        put_int32(writer, 4, self.exit_code)?;
        put_octets(writer, 5, self.stdout_raw)?;
        put_embedded(writer, 6, &self.stdout_digest)?;
        put_octets(writer, 7, self.stderr_raw)?;
        put_embedded(writer, 8, &self.stderr_digest)
    }
}

impl<'a> Decode<'a> for ActionResult<'a> {
    #[tactic(auto, unfolding(crate::specs::Results::action_result_of))]
    fn of_fields(alloc: Global, fields: &[Field<'a>]) -> Result<Self, MessageError> {
        Ok(ActionResult {
            output_files: repeated(alloc, fields, 2)?,
            output_directories: repeated(alloc, fields, 3)?,
            exit_code: int32(fields, 4),
            stdout_raw: octets(fields, 5),
            stdout_digest: embedded(alloc, fields, 6)?,
            stderr_raw: octets(fields, 7),
            stderr_digest: embedded(alloc, fields, 8)?,
        })
    }
}
