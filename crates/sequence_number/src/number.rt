// Which sequence numbers the receiver takes.
ghost use Rattle.std.specs.Prelude.{◌≡◌};
ghost use Rattle.sequence_number.specs.Number.{nat_of, taken};

// The number, or nothing for one that is refused with 4: below 1, or the type's last.
pub fn number_of(n: i64) -> Option<u64>
    ensures { result ≡ taken n }
{
    if n < 1 || n == i64::MAX {
        return None;
    }
    Some(n as u64)
}

// The number, or 0 for a negative one. By a test: with `try_from(n).unwrap_or(0)` a dense set is made in 790 ns and not in 570.
pub fn natural(n: i64) -> u64
    ensures { result ≡ nat_of n }
{
    if n < 0 { 0 } else { n as u64 }
}
