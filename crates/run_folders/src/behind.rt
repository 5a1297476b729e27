//! What lies below a path.

ghost use Rattle.std.specs.Prelude.{◌≡◌, ◌↔◌, IsTrue, map};
ghost use Rattle.std.specs.Option.{option_map};
ghost use Rattle.std.specs.Rc.{rc_str_bytes};
ghost use Rattle.std.specs.Str.{bytes_eq};
ghost use Rattle.run_folders.specs.Below.{IsBelow};
ghost use Rattle.run_folders.specs.Segments.{names_behind, path_names};

use crate::segments::{first_segment, names_left};
use std::rc::RcStr;

/// Whether a path is that of a folder, or leads to what is below it.
pub fn is_below(folder: &str, path: &str) -> bool
    ensures { IsTrue result ↔ IsBelow folder.now path.now }
{
    match path.as_bytes().strip_prefix(folder.as_bytes()) {
        Some([]) => true,
        Some([first, ..]) => *first == b'/',
        None => false,
    }
}

fn is_name(name: &RcStr, segment: &str) -> bool
    ensures { result ≡ bytes_eq segment.now (rc_str_bytes name.now) }
{
    segment == name.as_str()
}

/// The names that follow those of a path, where these names begin with them.
pub fn names_behind<'b>(path: &str, names: &'b [RcStr]) -> Option<&'b [RcStr]>
    ensures { option_map (λ rest. map rc_str_bytes rest.now) result
        ≡ names_behind (path_names path.now) (map rc_str_bytes names.now) }
{
    let mut passed = names_left(path);
    let mut left = names;
    'names: while let Some(text) = passed {
        let (segment, after) = first_segment(text);
        let [first, rest @ ..] = left else {
            return None;
        };
        if !is_name(first, segment) {
            return None;
        }
        passed = after;
        left = rest;
    }
    Some(left)
}
