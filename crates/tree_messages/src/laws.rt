//! What reading and writing messages have to do with each other: a message that is written means
//! what it was written for.

ghost use Rattle.protobuf_wire.specs.Again.{AreReadAgain};
ghost use Rattle.tree_messages.specs.Directories.{FitsDirectory, FitsTree, directory_of, directory_records, tree_of, tree_records};
ghost use Rattle.tree_messages.specs.Results.{FitsActionResult, action_result_of, action_result_records};
ghost use Rattle.tree_messages.specs.GetTree.{FitsGetTreeRequest, FitsGetTreeResponse, get_tree_request_of, get_tree_request_records, get_tree_response_of, get_tree_response_records};
ghost use Rattle.tree_messages.specs.ActionCache.{FitsGetActionResultRequest, FitsUpdateActionResultRequest, get_action_result_request_of, get_action_result_request_records, update_action_result_request_of, update_action_result_request_records};

/// A directory and a tree that are written are read again.
pub fn directories_are_read_again()
    ensures directory { AreReadAgain directory_of directory_records FitsDirectory }
    ensures tree { AreReadAgain tree_of tree_records FitsTree }
{}

/// A result that is written is read again.
pub fn action_results_are_read_again()
    ensures { AreReadAgain action_result_of action_result_records FitsActionResult }
{}

/// GetTree: a request and a response that are written are read again.
pub fn get_tree_is_read_again()
    ensures request { AreReadAgain get_tree_request_of get_tree_request_records FitsGetTreeRequest }
    ensures response { AreReadAgain get_tree_response_of get_tree_response_records
        FitsGetTreeResponse }
{}

/// GetActionResult and UpdateActionResult: requests that are written are read again.
pub fn action_cache_is_read_again()
    ensures get { AreReadAgain get_action_result_request_of get_action_result_request_records
        FitsGetActionResultRequest }
    ensures update { AreReadAgain update_action_result_request_of
        update_action_result_request_records FitsUpdateActionResultRequest }
{}
