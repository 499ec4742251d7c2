// Hexadecimal digits of either case.
ghost use Rattle.std.specs.Prelude.{◌≡◌, true, ◌+◌, ◌≤◌, length};
ghost use Rattle.line_text.specs.Hex.{all_hex, value_at};

// Whether every byte is a digit.
pub fn all_hex(s: &[u8]) -> bool
    ensures { result ≡ all_hex s.now }
{
    s.iter().all(|c| c.is_ascii_hexdigit())
}

// The number that n digits from a place on write, the most significant first.
pub fn value_at(s: &[u8], at: usize, n: usize) -> u64
    requires { (at + n ≤ length s.now) × (n ≤ 16) × (all_hex s.now ≡ true) }
    ensures { result ≡ value_at s.now at n }
{
    let mut v: u64 = 0;
    for c in &s[at..at + n] {
        let digit = char::from(*c).to_digit(16).unwrap();
        v = v * 16 + u64::from(digit);
    }
    v
}
