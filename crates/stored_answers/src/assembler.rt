// The calls on a fragment assembler. One record and one area serve from line to line.
ghost use Rattle.assembly_record.specs.Rules.{GoodAssembler};
ghost use Rattle.stored_answers.specs.GoodProps.{GoodAssembler-prop};

use crate::args::Args;
use crate::codes::AssemblerCode;
use crate::digest::{bytes_digest, words_digest};
use crate::out::{Found, end, first, line, next, no_call, rest, told};
use fragment_assembler::clean::garbage_collect_before;
use fragment_assembler::fragment::{Answer, DataFrag, new_datafrag};
use fragment_assembler::missing::missing_frags_for;
use fragment_assembler::query::{in_assembly, is_partially_received};
use fragment_assembler::set_up::set_up;
use fragment_assembler::view::view;
use outcome::Refusal;

// Where a fragment's bytes start among the words.
const PAYLOAD: usize = 7;

// Set-up, answered with the digest of its words: f mode p, mode 1 reliable and 0 best effort. Returned: whether it was done.
// No method: it also serves words that are no record by the rules, so that what it keeps stands here, with its condition.
fn start(rt: &impl Print, t: &mut [u64], f: u16, mode: bool, p: u32) -> bool
    ensures { GoodAssembler t.old → GoodAssembler t.new }
{
    let done = set_up(t, f, mode, p);
    told(rt, &done);
    next(rt, words_digest(t));
    end(rt);
    done.is_ok()
}

// What an area holds before the first fragment.
fn fill_area(area: &mut [u8]) {
    let mut byte: u8 = 3;
    for place in area.iter_mut() {
        *place = byte;
        byte = byte.wrapping_add(7);
    }
}

// On other words: room f mode p. Not one function with the proxy's: it lends other words to another call.
fn start_fresh(rt: &impl Print, c: Args) {
    let mut lent = [90u64; 1000];
    match lent.get_mut(..c.at(0)) {
        Some(lent) => {
            start(rt, lent, c.at(1), c.at(2), c.at(3));
        }
        None => no_call(rt),
    }
}

// 0; or 1 and the returned number, its place and length; or 2 and the dropped number.
impl Found for Answer {
    fn show(&self, rt: &impl Print) {
        match self {
            Answer::Kept => next(rt, 0u8),
            Answer::Returned {
                number,
                place,
                length,
            } => {
                next(rt, 1u8);
                next(rt, *number);
                next(rt, *place);
                next(rt, *length);
            }
            Answer::Dropped(number) => {
                next(rt, 2u8);
                next(rt, *number);
            }
        }
    }
}

// What became of a fragment, how many are in assembly, the digests of record and area, and what was returned, as the view shows it.
// No method: the area shown is the part that was lent, which the struct does not know.
fn told_fragment(rt: &impl Print, t: &[u64], area: &[u8], reply: Result<Answer, Refusal>)
    requires { GoodAssembler t.now }
{
    told(rt, &reply);
    next(rt, in_assembly(t));
    next(rt, words_digest(t));
    next(rt, bytes_digest(area));
    let shown = match reply {
        Ok(Answer::Returned { place, length, .. }) => view(t, area, place, length as usize),
        Ok(Answer::Kept | Answer::Dropped(_)) | Err(_) => &[],
    };
    rest(rt, shown);
}

// An assembler by the rules, and its area.
#[derive(Drop)]
pub(crate) struct AssemblerCalls<'a> {
    pub(crate) t: &'a mut [u64],
    pub(crate) area: &'a mut [u8],
    ghost good: { GoodAssembler t.now } by { GoodAssembler-prop t.now },
}

impl AssemblerCalls<'_> {
    // f mode p; nothing changes after a refusal.
    fn set_up(&mut self, rt: &impl Print, c: Args) {
        if start(rt, self.t, c.at(0), c.at(1), c.at(2)) {
            fill_area(self.area);
        }
    }

    // Fragment: area time number size D start count byte ..
    fn fragment(&mut self, rt: &impl Print, c: Args) {
        let mut bytes = [0u8; 1100];
        let Some(payload) = c.list(PAYLOAD, &mut bytes) else {
            return no_call(rt);
        };
        let t = &mut *self.t;
        let area = &mut *self.area;
        let Some(area) = area.get_mut(..c.at(0)) else {
            return no_call(rt);
        };
        let frag = DataFrag {
            fragment_size: c.at(3),
            data_size: c.at(4),
            start: c.at(5),
            count: c.at(6),
            payload,
        };
        let reply = new_datafrag(t, area, c.at(1), c.at(2), frag);
        told_fragment(rt, t, area, reply);
    }

    // View: area place length
    fn view(&self, rt: &impl Print, c: Args) {
        let Some(area) = self.area.get(..c.at(0)) else {
            return no_call(rt);
        };
        let shown = view(self.t, area, c.at(1), c.at(2));
        first(rt, shown.len());
        rest(rt, shown);
    }

    // Cleaning: cutoff room
    fn clean(&mut self, rt: &impl Print, c: Args) {
        let mut lent = [90i64; 300];
        let Some(lent) = lent.get_mut(..c.at(1)) else {
            return no_call(rt);
        };
        let t = &mut *self.t;
        told(rt, &garbage_collect_before(t, c.at(0), lent));
        next(rt, words_digest(t));
        rest(rt, lent);
    }

    // Missing fragments: number room
    fn missing(&self, rt: &impl Print, c: Args) {
        let mut lent = [90u32; 300];
        let Some(lent) = lent.get_mut(..c.at(1)) else {
            return no_call(rt);
        };
        told(rt, &missing_frags_for(self.t, c.at(0), lent));
        rest(rt, lent);
    }

    // In assembly: number
    fn is_in(&self, rt: &impl Print, c: Args) {
        line(rt, is_partially_received(self.t, c.at(0)));
    }

    // How many are in assembly
    fn how_many(&self, rt: &impl Print) {
        line(rt, in_assembly(self.t));
    }

    pub(crate) fn call(&mut self, rt: &impl Print, code: AssemblerCode, c: Args) {
        match code {
            AssemblerCode::SetUp => self.set_up(rt, c),
            AssemblerCode::SetUpOn => start_fresh(rt, c),
            AssemblerCode::Fragment => self.fragment(rt, c),
            AssemblerCode::Clean => self.clean(rt, c),
            AssemblerCode::View => self.view(rt, c),
            AssemblerCode::Missing => self.missing(rt, c),
            AssemblerCode::IsInAssembly => self.is_in(rt, c),
            AssemblerCode::InAssembly => self.how_many(rt),
        }
    }
}
