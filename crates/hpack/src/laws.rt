//! What reading and writing have to do with the grammar, for all octets and tables.

ghost use Rattle.std.specs.Prelude.{◌≡◌, ◌≢◌, ℕ, ◌≤◌, List, [], Ok, Err};
ghost use Rattle.hpack.specs.Header.{Header, total_size};
ghost use Rattle.hpack.specs.Table.{Table, longest_front, IsLongestFront};
ghost use Rattle.hpack.specs.Block.{IsBlock, block_of, list_limit, FaultsAt, PassesLimit, IsFault};
ghost use Rattle.hpack.specs.Encoding.{block_text};
ghost use Rattle.hpack.specs.declared.encoder.Position.TheVariants.{First, Later};
ghost use Rattle.hpack.specs.declared.error.HpackError.{HpackError};
ghost use Rattle.hpack.specs.declared.error.HpackError.TheVariants.{ListTooLarge};

/// A block within the limit is read as the fields that its representations give, and as no others.
pub fn reading_is_the_grammar()
    ensures only { (bytes : List ℕ) (table after : Table) (hs : List Header) →
        IsBlock bytes table hs after → total_size hs ≤ list_limit →
        block_of table bytes ≡ Ok (hs, after) }
    ensures found { (bytes : List ℕ) (table after : Table) (hs : List Header) →
        block_of table bytes ≡ Ok (hs, after) → IsBlock bytes table hs after }
    ensures within { (bytes : List ℕ) (table after : Table) (hs : List Header) →
        block_of table bytes ≡ Ok (hs, after) → total_size hs ≤ list_limit }
{}

/// A field list is refused as too large where the fields of a front pass the limit, whatever
/// follows them.
pub fn the_limit_is_on_the_fields()
    ensures stands { (bytes : List ℕ) (table : Table) → block_of table bytes ≡ Err ListTooLarge →
        PassesLimit bytes table }
    ensures comes { (bytes : List ℕ) (table : Table) → PassesLimit bytes table →
        block_of table bytes ≡ Err ListTooLarge }
{}

/// Any other refusal stands at the first fault, and only where there is no reading.
pub fn refusal_is_the_first_fault()
    ensures stands { (bytes : List ℕ) (table : Table) (e : HpackError) →
        block_of table bytes ≡ Err e → e ≢ ListTooLarge → FaultsAt bytes table e }
    ensures comes { (bytes : List ℕ) (table : Table) (e : HpackError) → FaultsAt bytes table e →
        block_of table bytes ≡ Err e }
    ensures no_reading { (bytes : List ℕ) (table : Table) (e : HpackError) →
        block_of table bytes ≡ Err e → e ≢ ListTooLarge → (hs : List Header) (after : Table) →
        ¬ IsBlock bytes table hs after }
    // Neither a want of memory nor an earlier refusal is a fault of the octets.
    ensures kind { (bytes : List ℕ) (table : Table) (e : HpackError) →
        block_of table bytes ≡ Err e → IsFault e }
{}

/// What a table keeps is the longest front that fits.
pub fn the_longest_front_is_kept()
    ensures kept { (room : ℕ) (entries : List Header) →
        IsLongestFront room entries (longest_front room entries) }
    ensures only { (room : ℕ) (entries front : List Header) → IsLongestFront room entries front →
        front ≡ longest_front room entries }
{}

/// A server's block is read back from any table. The first of a connection sets the table's maximum
/// to 0; later ones leave it alone.
pub fn server_blocks_are_read_back()
    ensures first { (table : Table) (hs : List Header) → total_size hs ≤ list_limit →
        block_of table (block_text First hs) ≡ Ok (hs, record { maximum = 0; entries = [] }) }
    ensures later { (table : Table) (hs : List Header) → total_size hs ≤ list_limit →
        block_of table (block_text Later hs) ≡ Ok (hs, table) }
{}
