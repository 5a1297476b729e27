//! The limits that clauses and definitions call by their names, as numbers.

ghost use Rattle.std.specs.Prelude.{◌≡◌, ◌^◌};
ghost use Rattle.blob_pool.specs.declared.text.TheConstants.{MOST_BYTES, PAGE_BYTES};
ghost use Rattle.instance_view.specs.declared.view.TheConstants.{MOST_LIMIT};
ghost use Rattle.bytestream.specs.ParseConstants.{MOST_UUID};
ghost use Rattle.uploads.specs.declared.steps.TheConstants.{MOST_UPLOADS};
ghost use Rattle.uploads.specs.declared.table.TheConstants.{UPLOAD_AGE};
ghost use Rattle.cas_service.specs.declared.requests.TheConstants.{MOST_BATCH_BYTES};
ghost use Rattle.tree_calls.specs.Asking.{longest_request};
ghost use Rattle.tree_calls.specs.DirectoryConstants.{MOST_DIRECTORY_BYTES};
ghost use Rattle.tree_calls.specs.ListingConstants.{MOST_DIRECTORIES};
ghost use Rattle.tree_calls.specs.PagesConstants.{MOST_PAGE_BYTES};

/// What texts keep to: the bytes of one text and of a page of it, and how many a view may have at
/// most.
pub fn limits_of_texts()
    ensures bytes { MOST_BYTES ≡ 2 ^ 48 }
    ensures page { PAGE_BYTES ≡ 65536 }
    ensures texts { MOST_LIMIT ≡ 2 ^ 31 }
{}

/// What uploads keep to: the bytes of an upload's uuid, how many of them an instance has
/// unfinished, and for how many milliseconds one is kept that is not written to.
pub fn limits_of_uploads()
    ensures uuid { MOST_UUID ≡ 128 }
    ensures uploads { MOST_UPLOADS ≡ 64 }
    ensures age { UPLOAD_AGE ≡ 600000 }
{}

/// What batches and trees keep to: the bytes of a message of a request, of the blobs of a batch, of
/// a directory, and of the directories on a page of a tree's list, and how many directories that
/// list has.
pub fn limits_of_batches_and_trees()
    ensures request { longest_request ≡ 4194304 }
    ensures batch { MOST_BATCH_BYTES ≡ 4000000 }
    ensures directory { MOST_DIRECTORY_BYTES ≡ 67108864 }
    ensures page { MOST_PAGE_BYTES ≡ 4000000 }
    ensures directories { MOST_DIRECTORIES ≡ 10000 }
{}
