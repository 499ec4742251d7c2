// Making a set from a base and a strictly rising list, which stands for the Rust's BTreeSet.
ghost use Rattle.std.specs.Prelude.{◌≡◌};
ghost use Rattle.outcome.specs.Refusal.{said};
ghost use Rattle.number_set.specs.NumberSet.{empty_at};
ghost use Rattle.number_set.specs.Make.{is_rising, smaller, spanned, make_set};

use crate::set::NumberSet;
use bitmap::mark;
use outcome::Refusal;
use sequence_number::kind::Number;

// The count of a set whose last member is so far from its base.
fn spanned(away: u64) -> u32
    ensures { result ≡ spanned away }
{
    (away.min(255) + 1) as u32
}

fn is_rising<N: Number>(list: &[N]) -> bool
    ensures { result ≡ is_rising N.kind list.now }
{
    list.is_sorted_by(|a, b| a.is_below(*b))
}

fn smaller<N: Number>(a: N, b: N) -> N
    ensures { result ≡ smaller N.kind a b }
{
    if b.is_below(a) { b } else { a }
}

fn empty_at<N>(base: N) -> NumberSet<N>
    ensures { result ≡ empty_at base }
{
    NumberSet {
        base,
        count: 0,
        words: [0u32; 8],
    }
}

impl<N: Number> NumberSet<N> {
    // The set from a base through the list's last member, cut at 256 bits; 15 where the list does not rise strictly.
    pub fn from_base_and_set(base: N, list: &[N]) -> Result<NumberSet<N>, Refusal>
        ensures { said result ≡ make_set N.kind base list.now }
    {
        if !is_rising(list) {
            return Err(Refusal::NotRising);
        }
        let (Some(first), Some(last)) = (list.first(), list.last()) else {
            return Ok(empty_at(base));
        };
        let low = smaller(base, *first);
        if low.is_below(N::LEAST) {
            return Ok(empty_at(N::LEAST));
        }
        let count = spanned(low.apart(*last));
        let words = mark(list, low, count);
        Ok(NumberSet {
            base: low,
            count,
            words,
        })
    }
}
