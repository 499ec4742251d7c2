// The marks of a place: which of its fragments have come. They are lent as the part of a row that they are, a slice of four words.
ghost use Rattle.std.specs.Prelude.{◌≡◌, ◌+◌, ◌<◌, ◌≤◌, length};
ghost use Rattle.assembly_record.specs.Sizes.{most_fragments, mark_words};
ghost use Rattle.outcome.specs.Lent.{over};
ghost use Rattle.assembly_record.specs.Marks.{marked, mark_run, gaps};
ghost use Rattle.assembly_record.specs.Rows.{FirstGap};

// The n marks from k, counted from 0, are set.
pub(crate) fn mark_run(m: &mut [u64], k: usize, n: usize)
    requires { (k + n ≤ most_fragments) × (length m.old ≡ mark_words) }
    ensures { m.new ≡ mark_run m.old k n }
{
    for j in k..k + n {
        m[j / 64] |= 1 << (j % 64);
    }
}

fn is_marked(m: &[u64], j: usize) -> bool
    requires { (j < most_fragments) × (length m.now ≡ mark_words) }
    ensures { result ≡ marked m.now j }
{
    (m[j / 64] >> (j % 64)) % 2 == 1
}

// How many marks are set before the first that is not.
pub(crate) fn first_gap(m: &[u64]) -> usize
    requires { length m.now ≡ mark_words }
    ensures { FirstGap m.now result }
{
    for (i, word) in m.iter().enumerate() {
        if *word != u64::MAX {
            return 64 * i + word.trailing_ones() as usize;
        }
    }
    64 * m.len()
}

// How many of the first n marks are not set. In a loop: with `filter(..).count()` a call that lists 255 of 256 runs 7,000 instructions, so 5,500.
pub fn count_gaps(m: &[u64], n: usize) -> usize
    requires { (length m.now ≡ mark_words) × (n ≤ most_fragments) }
    ensures { result ≡ length (gaps m.now n) }
{
    let mut k = 0;
    for j in 0..n {
        if !is_marked(m, j) {
            k += 1;
        }
    }
    k
}

// The fragments that lack a mark among the first n, numbered from 1, in front of the lent list.
pub fn list_gaps(m: &[u64], n: usize, out: &mut [u32])
    requires { (length m.now ≡ mark_words) × ((n ≤ most_fragments) × (length (gaps m.now n) ≤ length out.old)) }
    ensures { out.new ≡ over (gaps m.now n) out.old }
{
    // k is counted by hand: of a list that is written through a `zip` the library says nothing.
    let mut k = 0;
    for i in 0..n {
        if !is_marked(m, i) {
            out[k] = i as u32 + 1;
            k += 1;
        }
    }
}
