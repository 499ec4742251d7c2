// Words of four bytes, in either byte order. Bytes and a place go together here and above, as the definitions have them: `&s[at..]` would be cut by each caller.
ghost use Rattle.std.specs.Prelude.{◌≡◌, ◌+◌, ◌≤◌, length};
ghost use Rattle.std.proofs.lemmas.List.Edits.{sets};
ghost use Rattle.sequence_number.specs.Word.{word_at, word_bytes};

use crate::ByteOrder;

// The word that starts at a place.
pub fn read_word(o: ByteOrder, s: &[u8], at: usize) -> u32
    requires { at + 4 ≤ length s.now }
    ensures { result ≡ word_at o s.now at }
{
    let (a, b, c, d) = (s[at], s[at + 1], s[at + 2], s[at + 3]);
    match o {
        ByteOrder::Big => u32::from_be_bytes([a, b, c, d]),
        ByteOrder::Little => u32::from_le_bytes([a, b, c, d]),
    }
}

// A word to a place, byte by byte: what `copy_from_slice` into a part leaves of the whole did not close.
pub fn write_word(o: ByteOrder, v: u32, out: &mut [u8], at: usize)
    requires { at + 4 ≤ length out.old }
    ensures { out.new ≡ sets out.old at (word_bytes o v) }
{
    let bytes = match o {
        ByteOrder::Big => v.to_be_bytes(),
        ByteOrder::Little => v.to_le_bytes(),
    };
    out[at] = bytes[0];
    out[at + 1] = bytes[1];
    out[at + 2] = bytes[2];
    out[at + 3] = bytes[3];
}
