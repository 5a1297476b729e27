//! Texts of octets (RFC 7541, section 5.2).

ghost use Rattle.std.specs.Prelude.{◌≡◌, ◌-◌, ◌*◌, ◌<◌, length, take, vec_capacity, vec_len, Err, IfErr, OnErr, OnOk};
ghost use Rattle.hpack_huffman.specs.Answers.{Appends, Refuses};
ghost use Rattle.hpack_huffman.specs.Reading.{text_of_octets};
ghost use Rattle.hpack_huffman.specs.declared.HuffmanError.TheVariants.{NoMemory};

use crate::HuffmanError;
use crate::reader::BitReader;

#[tactic(auto, unfolding(crate::specs::Reading::text_of_octets))]
fn append_text(octets: &[u8], text: &mut Vec<u8>) -> Result<(), HuffmanError>
    ensures appended { OnOk result (Appends
        (text_of_octets octets.now) text.old.items text.new.items) }
    ensures front { take (length text.old.items) text.new.items ≡ text.old.items }
    ensures refused { IfErr result (λ e. Refuses e (text_of_octets octets.now)) }
    ensures full { result ≡ Err NoMemory →
        5 * (vec_capacity text.old - vec_len text.old) < 8 * length octets.now }
{
    let mut reader = BitReader::new(octets);
    while let Some(symbol) = reader.next()? {
        text.push(symbol).map_err(|_| HuffmanError::NoMemory)?;
    }
    Ok(())
}

/// Adds the text whose Huffman coding the octets are at the end of `text`.
///
/// A refused text is as it was before. The first fault from the left is the one that is answered.
pub fn decode_into(octets: &[u8], text: &mut Vec<u8>) -> Result<(), HuffmanError>
    ensures appended { OnOk result (Appends
        (text_of_octets octets.now) text.old.items text.new.items) }
    ensures err { OnErr result (text.new.items ≡ text.old.items) }
    ensures refused { IfErr result (λ e. Refuses e (text_of_octets octets.now)) }

    // No code has fewer than five bits, so room for eight octets in place of each five is enough.
    ensures full { result ≡ Err NoMemory →
        5 * (vec_capacity text.old - vec_len text.old) < 8 * length octets.now }
{
    let before = text.len();
    let answer = append_text(octets, text);
    if answer.is_err() {
        text.truncate(before);
    }
    answer
}
