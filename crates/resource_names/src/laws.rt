//! What a name has to do with the text that writes it, for every text.

ghost use Rattle.std.specs.Prelude.{◌≡◌, ℕ, List, Ok};
ghost use Rattle.resource_names.specs.Names.{ReadNameValue, WriteNameValue, read_name, write_name};
ghost use Rattle.resource_names.specs.Written.{WritesRead, WritesWrite};

/// A `Read` names a blob exactly where its text is `{instance}/blobs/{hash}/{size}`, or the same
/// without the instance and its slash.
pub fn a_read_is_named_by_its_written_form()
    ensures only { (text : List ℕ) (name : ReadNameValue)
        → WritesRead text name → read_name text ≡ Ok name }
    ensures found { (text : List ℕ) (name : ReadNameValue)
        → read_name text ≡ Ok name → WritesRead text name }
{}

/// A `Write` names an upload exactly where its text is
/// `{instance}/uploads/{uuid}/blobs/{hash}/{size}`, or the same without the instance and its slash,
/// and perhaps further segments after it.
pub fn a_write_is_named_by_its_written_form()
    ensures only { (text : List ℕ) (name : WriteNameValue)
        → WritesWrite text name → write_name text ≡ Ok name }
    ensures found { (text : List ℕ) (name : WriteNameValue)
        → write_name text ≡ Ok name → WritesWrite text name }
{}
