// The words of a call as the values that it takes.
use crate::word::Word;

// The words after a call's code.
#[derive(Clone, Copy)]
pub(crate) struct Args<'a> {
    pub(crate) words: &'a [u64],
}

impl<'a> Args<'a> {
    // The value at a place, of the word 0 where there are fewer.
    pub(crate) fn at<W: Word>(self, i: usize) -> W {
        W::of(self.words.get(i).copied().unwrap_or(0))
    }

    // The words from a place on.
    pub(crate) fn rest(self, from: usize) -> &'a [u64] {
        self.words.get(from..).unwrap_or(&[])
    }

    // The values from a place on, at the front of what is lent; nothing where there are more.
    pub(crate) fn list<'b, W: Word>(self, from: usize, lent: &'b mut [W]) -> Option<&'b [W]> {
        let words = self.rest(from);
        let list = lent.get_mut(..words.len())?;
        fill(list, words);
        Some(list)
    }
}

// The values of words, as many as both have places for.
pub(crate) fn fill<W: Word>(values: &mut [W], words: &[u64]) {
    for (value, word) in values.iter_mut().zip(words) {
        *value = W::of(*word);
    }
}
