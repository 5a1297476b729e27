//! The names of a path.

ghost use Rattle.std.specs.Prelude.{◌≡◌, ◌∷◌};
ghost use Rattle.run_folders.specs.Segments.{path_names, segments_left, segments_of};

/// The first name of a path, and what follows its slash where it has one.
pub(crate) fn first_segment(text: &str) -> (&str, Option<&str>)
    ensures { segments_of text.now ≡ result.0.now ∷ segments_left result.1 }
{
    match text.split_once('/') {
        Some((segment, rest)) => (segment, Some(rest)),
        None => (text, None),
    }
}

/// A path, where it has names.
pub(crate) fn names_left(path: &str) -> Option<&str>
    ensures { segments_left result ≡ path_names path.now }
{
    if path.is_empty() { None } else { Some(path) }
}
