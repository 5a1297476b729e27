//! What holds of every request and every response block.

ghost use Rattle.std.specs.Prelude.{◌≡◌, ◌<◌, ◌≤◌, ◌↔◌, ℕ, List, [], Ok, Err, Some, length};
ghost use Rattle.hpack.specs.Header.{Header};
ghost use Rattle.hpack.specs.Table.{Table};
ghost use Rattle.hpack.specs.Block.{block_of};
ghost use Rattle.hpack.specs.Encoding.{block_text};
ghost use Rattle.hpack.specs.declared.encoder.Position.{Position};
ghost use Rattle.hpack.specs.declared.encoder.Position.TheVariants.{First, Later};
ghost use Rattle.rpc.specs.declared.refusal.Refusal.{Refusal};
ghost use Rattle.rpc.specs.Status.{code_count, code_of, text_of};
ghost use Rattle.rpc.specs.declared.method.Method.{Method};
ghost use Rattle.grpc_calls.specs.declared.request.HeadFault.{HeadFault};
ghost use Rattle.grpc_calls.specs.declared.response.ResponseBlock.{ResponseBlock};
ghost use Rattle.rpc.specs.Methods.{path_of, method_at};
ghost use Rattle.grpc_calls.specs.Requests.{IsCall, IsPost, IsGrpc, HasPathOf, head_of};
ghost use Rattle.grpc_calls.specs.Responses.{fields_of, percent_encoding};
ghost use Rattle.grpc_calls.specs.Responses.{longest_block};

/// A request calls a method exactly where its head is answered with it, and each fault comes
/// exactly where it stands and none before it.
pub fn the_head_says_which_call()
    ensures call { (hs : List Header) (m : Method) → (head_of hs ≡ Ok m) ↔ IsCall hs m }
    ensures method { (hs : List Header) → (head_of hs ≡ Err HeadFault.Method) ↔ (¬ IsPost hs) }
    ensures content_type { (hs : List Header) →
        (head_of hs ≡ Err HeadFault.ContentType) ↔ (IsPost hs × ¬ IsGrpc hs) }
    ensures path { (hs : List Header) →
        (head_of hs ≡ Err HeadFault.Path)
        ↔ (IsPost hs × IsGrpc hs × ((m : Method) → ¬ HasPathOf m hs)) }
{}

/// A path names one method at most, and the methods' paths alone name one.
pub fn a_path_names_one_method()
    ensures { (path : List ℕ) (m : Method) → (method_at path ≡ Some m) ↔ (path ≡ path_of m) }
{}

/// A peer's decoder reads each block back to its fields, at whatever table it stands.
pub fn response_blocks_are_read_back()
    ensures first { (table : Table) (block : ResponseBlock) →
        block_of table (block_text First (fields_of block))
        ≡ Ok (fields_of block, record { maximum = 0; entries = [] }) }
    ensures later { (table : Table) (block : ResponseBlock) →
        block_of table (block_text Later (fields_of block)) ≡ Ok (fields_of block, table) }
{}

/// A block fits in one frame.
pub fn response_blocks_are_short()
    ensures { (position : Position) (block : ResponseBlock) →
        length (block_text position (fields_of block)) ≤ longest_block }
{}

/// The texts of refusals are written as they are.
pub fn status_messages_need_no_encoding()
    ensures { (r : Refusal) → percent_encoding (text_of r) ≡ text_of r }
{}

/// The code of a refusal is one of gRPC's, and never OK.
pub fn a_refusal_is_never_ok()
    ensures { (r : Refusal) → (0 < code_of r) × (code_of r < code_count) }
{}
