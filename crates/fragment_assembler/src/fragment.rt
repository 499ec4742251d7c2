// A fragment arrives: the call, and what it answers.
ghost use Rattle.sequence_number.specs.Number.{number_of};
ghost use Rattle.fragment_assembler.specs.Fragment.{fragment_of};
ghost use Rattle.assembly_record.specs.Rules.{GoodAssembler};
ghost use Rattle.fragment_assembler.specs.Promise.{TakesFragment};

use crate::refusal::admit;
use crate::settle::take_frags;
use outcome::Refusal;

// What a fragment message brings: `count` fragments from `start`. `data_size` is looked at only where it opens the sample.
#[derive(Clone, Copy, Debug)]
pub struct DataFrag<'a> {
    pub fragment_size: u16,
    pub data_size: u32,
    pub start: u32,
    pub count: u16,
    pub payload: &'a [u8],
}

// What an accepted call answers: which thing happened to which number.
#[derive(Clone, Copy, Debug, PartialEq, Eq)]
pub enum Answer {
    Kept,
    Returned {
        number: u64,
        place: usize,
        length: u32,
    },
    Dropped(u64),
}

// A fragment of the sample `number` arrives; the time is stored as it is. The number is sought once, and a free place only where it opens.
pub fn new_datafrag(
    t: &mut [u64],
    area: &mut [u8],
    time: u64,
    number: i64,
    frag: DataFrag,
) -> Result<Answer, Refusal>
    requires { GoodAssembler t.old }
    ensures { TakesFragment t.old area.old (fragment_of time (number_of number) frag.entry) result t.new area.new }
{
    let (n, at) = admit(t, area.len(), number, frag)?;
    Ok(take_frags(t, area, time, n, at, frag))
}
