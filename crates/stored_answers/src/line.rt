// A line as words: lower-case hexadecimal with one space between them.
ghost use Rattle.std.specs.Prelude.{◌<◌, ◌≤◌, length, IfSome};

// A line read: how many words it has, nothing where it has too many words or the input ends before it does; and the input after what was read.
// It ends at the first byte that is neither a digit nor a space.
#[derive(Clone, Copy)]
pub(crate) struct Line<'a> {
    pub(crate) count: Option<usize>,
    pub(crate) rest: &'a [u8],
}

// What a digit stands for.
fn digit(c: u8) -> Option<u64>
    ensures { IfSome result (λ d. d < 16) }
{
    match c {
        b'0'..=b'9' => Some(u64::from(c - b'0')),
        b'a'..=b'f' => Some(u64::from(c - b'a') + 10),
        _ => None,
    }
}

// The line at the front of the input, its words to the front of the lent ones. A word's digits past 64 bits fall off at the front.
pub(crate) fn read_line<'a>(input: &'a [u8], words: &mut [u64]) -> Line<'a>
    requires { 0 < length input.now }
    ensures count { IfSome result.count (λ n. n ≤ length words.old) }
    ensures rest { length result.rest.now < length input.now }
{
    let mut count = 0;
    let mut value = 0;
    for (i, c) in input.iter().enumerate() {
        if let Some(d) = digit(*c) {
            value = (value << 4) | d;
            continue;
        }
        let rest = &input[i + 1..];
        let Some(word) = words.get_mut(count) else {
            return Line { count: None, rest };
        };
        *word = value;
        value = 0;
        count += 1;
        if *c != b' ' {
            return Line {
                count: Some(count),
                rest,
            };
        }
    }
    Line {
        count: None,
        rest: &[],
    }
}
