//! What reading and writing fields have to do with each other.

ghost use Rattle.std.specs.Prelude.{◌≡◌, true, Bool, ℕ, ℤ, List, Result, Ok, Option, None, Some, FitsSigned, IfSome, IsOk, length, ◌<◌, ◌^◌};
ghost use Rattle.std.specs.Int.{w32, w64};
ghost use Rattle.std.specs.List.{AllByRecursion, concat};
ghost use Rattle.std.specs.Str.{is_utf8};
ghost use Rattle.protobuf_wire.specs.Record.{Record};
ghost use Rattle.protobuf_wire.specs.Writing.{bytes_field};
ghost use Rattle.protobuf_wire.specs.Fields.{value_of_text, int64, int32, flag, octets, string, repeated_string, repeated_octets, repeated_enum, embedded_value, repeated_values, sent_bytes};
ghost use Rattle.protobuf_wire.specs.Parts.{int64_field, int32_field, flag_field, string_field, repeated_string_field, repeated_octets_field, repeated_enum_field, embedded_field, repeated_field, sent_field};
ghost use Rattle.protobuf_wire.specs.Again.{HasField, IsReadAgain};

use crate::message::Message;

/// A field that is written is read again, whatever other fields stand beside it.
pub fn a_field_is_read_again()
    ensures int64 { (field : ℕ) (z : ℤ) (rs : List Record) → FitsSigned w64 z →
        HasField field (int64_field field z) rs → int64 field rs ≡ z }
    ensures int32 { (field : ℕ) (z : ℤ) (rs : List Record) → FitsSigned w32 z →
        HasField field (int32_field field z) rs → int32 field rs ≡ z }
    ensures flag { (field : ℕ) (b : Bool) (rs : List Record) →
        HasField field (flag_field field b) rs → flag field rs ≡ b }
    ensures octets { (field : ℕ) (t : List ℕ) (rs : List Record) →
        HasField field (bytes_field field t) rs → octets field rs ≡ t }
    ensures string { (field : ℕ) (t : List ℕ) (rs : List Record) → is_utf8 t ≡ true →
        HasField field (string_field field t) rs → string field rs ≡ Ok t }
    ensures repeated_string { (field : ℕ) (ts : List (List ℕ)) (rs : List Record) →
        AllByRecursion (λ t. is_utf8 t ≡ true) ts →
        HasField field (repeated_string_field field ts) rs → repeated_string field rs ≡ Ok ts }
    ensures repeated_octets { (field : ℕ) (ts : List (List ℕ)) (rs : List Record) →
        HasField field (repeated_octets_field field ts) rs → repeated_octets field rs ≡ ts }
    ensures repeated_enum { (field : ℕ) (zs : List ℤ) (rs : List Record) →
        AllByRecursion (FitsSigned w32) zs → HasField field (repeated_enum_field field zs) rs →
        repeated_enum field rs ≡ Ok zs }
{}

/// Messages that are written as fields are read again, where each of them by itself is.
pub fn a_message_field_is_read_again<M: Message>()
    ensures set { (field : ℕ) (v : M.Value) (rs : List Record) →
        IsReadAgain M.value_of M.records_for v →
        HasField field (embedded_field M.records_for field (Some v)) rs →
        embedded_value M.value_of field rs ≡ Ok (Some v) }
    ensures absent { (field : ℕ) (rs : List Record) →
        HasField field (embedded_field M.records_for field None) rs →
        embedded_value M.value_of field rs ≡ Ok None }
    ensures repeated { (field : ℕ) (vs : List M.Value) (rs : List Record) →
        AllByRecursion (IsReadAgain M.value_of M.records_for) vs →
        HasField field (repeated_field M.records_for field vs) rs →
        repeated_values M.value_of field rs ≡ Ok vs }
    ensures sent { (field : ℕ) (o : Option (List ℕ)) (rs : List Record) →
        IfSome o (λ t. IsOk (value_of_text M.value_of t)) → HasField field (sent_field field o) rs →
        sent_bytes M.value_of field rs ≡ Ok o }
{}
