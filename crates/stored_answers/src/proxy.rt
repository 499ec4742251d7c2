// The calls on a writer proxy. One record serves from line to line.
ghost use Rattle.proxy_record.specs.Rules.{GoodProxy};
ghost use Rattle.stored_answers.specs.GoodProps.{GoodProxy-prop};

use crate::args::Args;
use crate::codes::ProxyCode;
use crate::digest::words_digest;
use crate::out::{Found, end, line, next, no_call, pair, rest, told};
use outcome::Refusal;
use proxy_record::Mark;
use proxy_steps::Forced;
use writer_proxy::irrelevant::{
    irrelevant_changes_range, irrelevant_changes_up_to, set_irrelevant_change,
};
use writer_proxy::missing::missing_seqnums;
use writer_proxy::query::{all_ackable_before, change_status, last_received, should_ignore_change};
use writer_proxy::received::received_changes_add;
use writer_proxy::set_up::set_up;

// What became of set-up, and the digest of its words.
// No method: it also serves words that are no record by the rules, so that what it keeps stands here, with its condition.
fn start(rt: &impl Print, t: &mut [u64])
    ensures { GoodProxy t.old → GoodProxy t.new }
{
    told(rt, &set_up(t));
    next(rt, words_digest(t));
    end(rt);
}

// On other words: room. Not one function with the assembler's: it lends other words to another call.
fn start_fresh(rt: &impl Print, c: Args) {
    let mut lent = [90u64; 1000];
    match lent.get_mut(..c.at(0)) {
        Some(lent) => start(rt, lent),
        None => no_call(rt),
    }
}

// 0; or 1 and the forced step.
impl Found for Option<Forced> {
    fn show(&self, rt: &impl Print) {
        match self {
            Some(step) => {
                next(rt, 1u8);
                next(rt, step.old);
                next(rt, step.new);
            }
            None => next(rt, 0u8),
        }
    }
}

// 0 untracked; 1 not available; or 2 and the time received.
fn told_status(rt: &impl Print, status: Option<Mark>) {
    match status {
        None => line(rt, 0u8),
        Some(Mark::NotAvailable) => line(rt, 1u8),
        Some(Mark::Received(time)) => pair(rt, 2u8, time),
    }
}

// 0, or number and time.
fn told_last(rt: &impl Print, last: Option<(u64, u64)>) {
    match last {
        None => line(rt, 0u8),
        Some((number, time)) => pair(rt, number, time),
    }
}

// A proxy by the rules.
#[derive(Drop)]
pub(crate) struct ProxyCalls<'a> {
    pub(crate) t: &'a mut [u64],
    ghost good: { GoodProxy t.now } by { GoodProxy-prop t.now },
}

impl ProxyCalls<'_> {
    // Missing numbers: start end room.
    fn missing(&self, rt: &impl Print, c: Args) {
        let mut lent = [90i64; 300];
        let Some(lent) = lent.get_mut(..c.at(2)) else {
            return no_call(rt);
        };
        told(rt, &missing_seqnums(self.t, c.at(0), c.at(1), lent));
        rest(rt, lent);
    }

    // What became of a change, the base after it, and the digest of the record.
    fn told_change(&self, rt: &impl Print, changed: Result<Option<Forced>, Refusal>) {
        told(rt, &changed);
        next(rt, all_ackable_before(self.t));
        next(rt, words_digest(self.t));
        end(rt);
    }

    // Ignored: number.
    fn ignored(&self, rt: &impl Print, c: Args) {
        line(rt, should_ignore_change(self.t, c.at(0)));
    }

    // Status: number.
    fn status(&self, rt: &impl Print, c: Args) {
        told_status(rt, change_status(self.t, c.at(0)));
    }

    fn last(&self, rt: &impl Print) {
        told_last(rt, last_received(self.t));
    }

    fn base(&self, rt: &impl Print) {
        line(rt, all_ackable_before(self.t));
    }

    // Received: number time. One irrelevant: number. Range: from until. Up to: smallest.
    pub(crate) fn call(&mut self, rt: &impl Print, code: ProxyCode, c: Args) {
        let changed = match code {
            ProxyCode::SetUp => return start(rt, self.t),
            ProxyCode::SetUpOn => return start_fresh(rt, c),
            ProxyCode::Received => received_changes_add(self.t, c.at(0), c.at(1)),
            ProxyCode::Irrelevant => set_irrelevant_change(self.t, c.at(0)),
            ProxyCode::IrrelevantRange => irrelevant_changes_range(self.t, c.at(0), c.at(1)),
            ProxyCode::IrrelevantUpTo => irrelevant_changes_up_to(self.t, c.at(0)),
            ProxyCode::IsIgnored => return self.ignored(rt, c),
            ProxyCode::Status => return self.status(rt, c),
            ProxyCode::Last => return self.last(rt),
            ProxyCode::Base => return self.base(rt),
            ProxyCode::Missing => return self.missing(rt, c),
        };
        self.told_change(rt, changed);
    }
}
