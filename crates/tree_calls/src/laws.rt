//! What the definitions say, for every instance.

ghost use Rattle.std.specs.Prelude.{◌≡◌, ◌<◌, ◌≤◌, ℕ, List, length, Ok};
ghost use Rattle.std.specs.List.{AllByRecursion};
ghost use Rattle.rpc.specs.Messages.{message_length_limit};
ghost use Rattle.digest.specs.declared.Digest.{Digest};
ghost use Rattle.instance_view.specs.Visible.{Blob};
ghost use Rattle.cas_service.specs.Within.{AreBlobsWithin};
ghost use Rattle.input_tree.specs.Listing.{Lookup, tree_list};
ghost use Rattle.input_tree.specs.declared.listing.TheConstants.{MOST_DIRECTORIES};
ghost use Rattle.tree_calls.specs.Asking.{IsShortRequest};
ghost use Rattle.tree_calls.specs.GetTree.{get_tree_replies};
ghost use Rattle.tree_calls.specs.Results.{after_get, after_update, get_action_result_reply, update_action_result_reply};
ghost use Rattle.tree_calls.specs.Lists.{IsWholeTree};
ghost use Rattle.tree_calls.specs.Pages.{AreNamedReplies, GiveTheList};
ghost use Rattle.tree_calls.specs.Complete.{LimitsValue, IsLimits, AreResultsWithin, IsCompleteReply};

/// The list of a tree begins with its root, and no digest stands twice in it. Each listed digest is
/// that of a directory, and each but the root is in a directory that stands before it; each
/// directory that is in a listed one is listed. There are at most 10,000.
pub fn tree_lists_are_whole()
    ensures whole { (look : Lookup) (root : Digest) (listed : List Digest) →
        tree_list look root ≡ Ok listed → IsWholeTree look root listed }
    ensures few { (look : Lookup) (root : Digest) (listed : List Digest) →
        tree_list look root ≡ Ok listed → length listed ≤ MOST_DIRECTORIES }
{}

/// The messages that answer `GetTree` are pages of the directories that the request's tree lists,
/// in order, from the place that it asks for on. Each has one directory at least and at most as
/// many as the request asks for, and their records have at most 4,000,000 bytes unless it has one
/// alone. Each but the last says the place at which the next begins.
pub fn pages_joined_are_the_list()
    ensures { (own request : List ℕ) (visible : List Blob) (messages : List (List ℕ)) →
        get_tree_replies own visible request ≡ Ok messages →
        GiveTheList own visible request messages }
{}

/// Each directory of a page that answers `GetTree` is what a digest of the tree's list names.
pub fn pages_given_are_named()
    ensures { (limit quota : ℕ) (own request : List ℕ) (visible : List Blob)
        (messages : List (List ℕ)) → AreBlobsWithin limit quota visible →
        get_tree_replies own visible request ≡ Ok messages →
        AreNamedReplies own visible request messages }
{}

/// A result that answers `GetActionResult` is the one that is stored under the action, and each
/// blob that it names is there.
pub fn results_given_are_complete()
    ensures { (own request reply : List ℕ) (visible results : List Blob) →
        get_action_result_reply own visible results request ≡ Ok reply →
        IsCompleteReply own visible results request reply }
{}

/// Where the result that is stored under the action is complete, it answers `GetActionResult`.
pub fn complete_results_are_given()
    ensures { (own request reply : List ℕ) (visible results : List Blob) →
        IsCompleteReply own visible results request reply →
        get_action_result_reply own visible results request ≡ Ok reply }
{}

/// An instance has no more results, and no more bytes of them together, than its limits allow,
/// whatever calls it answers.
pub fn results_stay_within()
    ensures get { (limits : LimitsValue) (own request : List ℕ) (visible results : List Blob) →
        AreResultsWithin limits results →
        AreResultsWithin limits (after_get own visible results request) }
    ensures update { (limits : LimitsValue) (own request : List ℕ) (results : List Blob) →
        AreResultsWithin limits results →
        AreResultsWithin limits (after_update own limits results request) }
{}

/// Each message of a reply is so short that its length can be written before it.
pub fn replies_are_short()
    ensures tree { (own request : List ℕ) (visible : List Blob) (messages : List (List ℕ)) →
        get_tree_replies own visible request ≡ Ok messages →
        AllByRecursion (λ message. length message < message_length_limit) messages }
    ensures get { (limits : LimitsValue) (own request reply : List ℕ)
        (visible results : List Blob) → IsLimits limits → AreResultsWithin limits results →
        get_action_result_reply own visible results request ≡ Ok reply →
        length reply < message_length_limit }
    ensures update { (own request reply : List ℕ) →
        IsShortRequest request → update_action_result_reply own request ≡ Ok reply →
        length reply < message_length_limit }
{}
