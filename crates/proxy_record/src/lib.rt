// The record that a caller keeps for one writer, as lent words: where its parts lie, and the changes of its table.
// The calls (crates `proxy_steps`, `writer_proxy`) read and change the table by `rows` alone; `column` is for `rows`.
// Its rules, `GoodProxy`, stand in contracts and not in a struct: one that holds C's `&mut` keeps its invariant at each write, which rows moved by column break.
#![tactic(auto)]

ghost use Rattle.std.specs.Prelude.{◌≡◌};
ghost use Rattle.proxy_record.specs.Words.{kind_of, time_of, mark_of};

mod column;
pub mod layout;
pub mod rows;

use layout::{NOT_AVAILABLE, RECEIVED};

// What the table says of a number: not available, or received at a time.
#[derive(Clone, Copy, Debug, PartialEq, Eq, Hash)]
pub enum Mark {
    NotAvailable,
    Received(u64),
}

impl Mark {
    // The two words that it is kept as: its kind and its time. Not `From`: how a mark lies in the record is for this crate alone.
    pub(crate) fn words(self) -> (u64, u64)
        ensures { result ≡ (kind_of self, time_of self) }
    {
        match self {
            Mark::NotAvailable => (NOT_AVAILABLE, 0),
            Mark::Received(time) => (RECEIVED, time),
        }
    }

    pub(crate) fn of_words(kind: u64, time: u64) -> Mark
        ensures { result ≡ mark_of kind time }
    {
        if kind == NOT_AVAILABLE {
            return Mark::NotAvailable;
        }
        Mark::Received(time)
    }
}
