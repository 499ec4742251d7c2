// A number that stands for many: of two runs of one length that differ in one place the digests differ.

// A prime below 2^32.
const MODULUS: u64 = 4294967291;

const FACTOR: u64 = 1000003;

fn mix(digest: u64, value: u64) -> u64 {
    ((digest % MODULUS) * FACTOR + value % MODULUS) % MODULUS
}

// A byte is one value. (A line each: one function for both would be passed what mixes an element in.)
pub(crate) fn bytes_digest(s: &[u8]) -> u64 {
    s.iter()
        .fold(1, |digest, byte| mix(digest, u64::from(*byte)))
}

// A word is two: its upper and its lower half.
pub(crate) fn words_digest(s: &[u64]) -> u64 {
    s.iter().fold(
        1,
        |digest, word| mix(mix(digest, *word >> 32), *word & 0xffff_ffff),
    )
}
