// What is written: words in hexadecimal with a space between them, an answer a line. A write that fails is passed over: the program has nowhere else to say so.
use crate::word::Word;
use outcome::Refusal;

// The first word of a line.
pub(crate) fn first<W: Word>(rt: &impl Print, value: W) {
    let word = value.word();
    let _ = print!(rt; "{word:x}");
}

// A word after the first. The space is a write of its own: where the output takes no more, other bytes would be passed over.
pub(crate) fn next<W: Word>(rt: &impl Print, value: W) {
    let _ = rt.write_all(b" ");
    first(rt, value);
}

pub(crate) fn end(rt: &impl Print) {
    let _ = rt.write_all(b"\n");
}

// The answer to a line that is no call.
pub(crate) fn no_call(rt: &impl Print) {
    let _ = rt.write_all(b"?\n");
}

// A line of one word.
pub(crate) fn line<W: Word>(rt: &impl Print, value: W) {
    first(rt, value);
    end(rt);
}

// A line of two words.
pub(crate) fn pair<V: Word, W: Word>(rt: &impl Print, a: V, b: W) {
    first(rt, a);
    next(rt, b);
    end(rt);
}

// The rest of a line.
pub(crate) fn rest<W: Word>(rt: &impl Print, values: &[W]) {
    for value in values {
        next(rt, *value);
    }
    end(rt);
}

// What a call finds, as the words after a 0.
pub(crate) trait Found {
    fn show(&self, rt: &impl Print);
}

impl Found for () {
    fn show(&self, _rt: &impl Print) {}
}

impl<W: Word> Found for W {
    fn show(&self, rt: &impl Print) {
        next(rt, *self);
    }
}

// The first words of a line: a refusal, or 0 and what was found.
pub(crate) fn told<F: Found>(rt: &impl Print, reply: &Result<F, Refusal>) {
    match reply {
        Ok(found) => {
            first(rt, 0u8);
            found.show(rt);
        }
        Err(refusal) => first(rt, refusal.number()),
    }
}
