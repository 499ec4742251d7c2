// The fragment assembler. words: the record, 906 of them from set-up on; area: 129 places.
ghost use Rattle.std.specs.Prelude.{◌≡◌};
ghost use Rattle.sequence_number.specs.Number.{number_of};
ghost use Rattle.fragment_assembler.specs.Fragment.{fragment_with};
ghost use Rattle.assembly_record.specs.Table.{is_partially_received, in_assembly};
ghost use Rattle.assembly_record.specs.Words.{assembler_of};
ghost use Rattle.assembly_record.specs.Rules.{GoodAssembler};
ghost use Rattle.drucenal.specs.AssemblerExports.{happened, SetsUpAssemblerOut, TakesFragmentOut, ViewsOut, CleansAssemblerOut, ListsFragmentsOut};

use crate::numbers::{give, refusal_number};
use fragment_assembler::fragment::{Answer, DataFrag, new_datafrag};

pub fn drucenal_assembler_set_up(
    words: &mut [u64],
    fragment_size: u16,
    reliable: bool,
    place_size: u32,
) -> u32
    ensures { SetsUpAssemblerOut words.old fragment_size reliable place_size result words.new }
{
    refusal_number(fragment_assembler::set_up::set_up(words, fragment_size, reliable, place_size))
}

// What became of it as C has it: 0 kept, 1 returned, 2 dropped.
pub fn drucenal_assembler_new_datafrag(
    words: &mut [u64],
    area: &mut [u8],
    time: u64,
    number: i64,
    fragment_size: u16,
    data_size: u32,
    start: u32,
    count: u16,
    payload: &[u8],
    what: &mut u32,
    of: &mut u64,
    place: &mut usize,
    length: &mut u32,
) -> u32
    requires { GoodAssembler words.old }
    ensures { TakesFragmentOut words.old area.old (fragment_with time (number_of number) fragment_size data_size start count payload.now) (happened what.old of.old place.old length.old) result (happened what.new of.new place.new length.new) words.new area.new }
{
    let frag = DataFrag {
        fragment_size,
        data_size,
        start,
        count,
        payload,
    };
    let (kind, whose, at, long) = match new_datafrag(words, area, time, number, frag) {
        Err(refusal) => return refusal.into(),
        Ok(Answer::Kept) => (0, 0, 0, 0),
        Ok(
            Answer::Returned {
                number: n,
                place: i,
                length: d,
            },
        ) => (1, n, i, d),
        Ok(Answer::Dropped(n)) => (2, n, 0, 0),
    };
    *what = kind;
    *of = whose;
    *place = at;
    *length = long;
    0
}

// The length of the part of the area that is shown; start: where it begins, 0 where it would pass the area's end.
pub fn drucenal_assembler_view(
    words: &[u64],
    area: &[u8],
    place: usize,
    length: usize,
    start: &mut usize,
) -> usize
    requires { GoodAssembler words.now }
    ensures { ViewsOut words.now area.now place length result start.new }
{
    *start = fragment_assembler::view::view_start(words, area.len(), place, length);
    fragment_assembler::view::view(words, area, place, length).len()
}

pub fn drucenal_assembler_garbage_collect_before(
    words: &mut [u64],
    expire_before: u64,
    out: &mut [i64],
    listed: &mut usize,
) -> u32
    requires { GoodAssembler words.old }
    ensures { CleansAssemblerOut words.old expire_before out.old listed.old result listed.new words.new out.new }
{
    give(
        fragment_assembler::clean::garbage_collect_before(words, expire_before, out),
        listed,
    )
}

pub fn drucenal_assembler_missing_frags_for(
    words: &[u64],
    number: i64,
    out: &mut [u32],
    listed: &mut usize,
) -> u32
    requires { GoodAssembler words.now }
    ensures { ListsFragmentsOut words.now (number_of number) out.old listed.old result listed.new out.new }
{
    give(
        fragment_assembler::missing::missing_frags_for(words, number, out),
        listed,
    )
}

pub fn drucenal_assembler_is_partially_received(words: &[u64], number: i64) -> bool
    requires { GoodAssembler words.now }
    ensures { result ≡ is_partially_received (assembler_of words.now).places (number_of number) }
{
    fragment_assembler::query::is_partially_received(words, number)
}

pub fn drucenal_assembler_in_assembly(words: &[u64]) -> usize
    requires { GoodAssembler words.now }
    ensures { result ≡ in_assembly (assembler_of words.now).places }
{
    fragment_assembler::query::in_assembly(words)
}
