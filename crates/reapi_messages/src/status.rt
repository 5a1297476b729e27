//! Results of calls, as google.rpc has them.

ghost use Rattle.std.specs.Prelude.{◌≡◌};

use protobuf_wire::{Message, Writer, put_int32, put_octets, put_repeated, put_string};
use std::alloc::{AllocError, Global};

/// `google.protobuf.Any`.
#[derive(Clone, Copy, Debug)]
pub struct Any<'a> {
    pub type_url: &'a str,
    /// A message of the type that `type_url` names.
    pub value: &'a [u8],
}

impl Message for Any<'_> {
    ghost use Rattle.reapi_messages.specs.Statuses.{AnyValue, any_shown, any_of, any_records};

    ghost Value = { AnyValue };

    ghost shown = { any_shown };

    ghost value_of = { any_of };

    ghost records_for = { any_records };

    #[tactic(auto, using(crate::proofs::Texts::written_more))]
    fn write(&self, writer: &mut Writer) -> Result<(), AllocError> {
        put_string(writer, 1, self.type_url)?;
        put_octets(writer, 2, self.value)
    }
}

/// `google.rpc.Status`.
#[derive(Drop, Debug)]
pub struct Status<'a> {
    /// A number of the enum `google.rpc.Code`; 0 is OK.
    pub code: i32,
    pub message: &'a str,
    pub details: Vec<Any<'a>>,
}

impl Message for Status<'_> {
    ghost use Rattle.reapi_messages.specs.Statuses.{StatusValue, status_shown, status_of, status_records};

    ghost Value = { StatusValue };

    ghost shown = { status_shown };

    ghost value_of = { status_of };

    ghost records_for = { status_records };

    #[tactic(auto, using(crate::proofs::Texts::written_more))]
    fn write(&self, writer: &mut Writer) -> Result<(), AllocError> {
        put_int32(writer, 1, self.code)?;
        put_string(writer, 2, self.message)?;
        put_repeated(writer, 3, &self.details)
    }
}
