// The fragment assembler. words: the record, 906 of them from set-up on; area: 129 places.
ghost use Rattle.std.specs.Prelude.{◌≡◌};
ghost use Rattle.sequence_number.specs.Number.{number_of};
ghost use Rattle.fragment_assembler.specs.Fragment.{fragment_with};
ghost use Rattle.assembly_record.specs.Table.{is_partially_received, in_assembly};
ghost use Rattle.assembly_record.specs.Words.{assembler_of};
ghost use Rattle.assembly_record.specs.Rules.{GoodAssembler};
ghost use Rattle.drucenal.specs.AssemblerExports.{happened, SetsUpAssemblerOut, TakesFragmentOut, ViewsOut, CleansAssemblerOut, ListsFragmentsOut};

#[unsafe(no_mangle)]
pub extern "C" fn drucenal_assembler_set_up(
    words: &mut [u64],
    fragment_size: u16,
    reliable: bool,
    place_size: u32,
) -> u32
    ensures { SetsUpAssemblerOut words.old fragment_size reliable place_size result words.new }
{
    drucenal::assembler::drucenal_assembler_set_up(words, fragment_size, reliable, place_size)
}

#[unsafe(no_mangle)]
pub extern "C" fn drucenal_assembler_new_datafrag(
    words: &mut [u64],
    area: &mut [u8],
    time: u64,
    number: i64,
    fragment_size: u16,
    data_size: u32,
    start: u32,
    count: u16,
    payload: &[u8],
    what: &mut u32,
    of: &mut u64,
    place: &mut usize,
    length: &mut u32,
) -> u32
    requires { GoodAssembler words.old }
    ensures { TakesFragmentOut words.old area.old (fragment_with time (number_of number) fragment_size data_size start count payload.now) (happened what.old of.old place.old length.old) result (happened what.new of.new place.new length.new) words.new area.new }
{
    drucenal::assembler::drucenal_assembler_new_datafrag(
        words,
        area,
        time,
        number,
        fragment_size,
        data_size,
        start,
        count,
        payload,
        what,
        of,
        place,
        length,
    )
}

// The length of the part of the area that is shown; start: where it begins, 0 where it would pass the area's end.
#[unsafe(no_mangle)]
pub extern "C" fn drucenal_assembler_view(
    words: &[u64],
    area: &[u8],
    place: usize,
    length: usize,
    start: &mut usize,
) -> usize
    requires { GoodAssembler words.now }
    ensures { ViewsOut words.now area.now place length result start.new }
{
    drucenal::assembler::drucenal_assembler_view(words, area, place, length, start)
}

#[unsafe(no_mangle)]
pub extern "C" fn drucenal_assembler_garbage_collect_before(
    words: &mut [u64],
    expire_before: u64,
    out: &mut [i64],
    listed: &mut usize,
) -> u32
    requires { GoodAssembler words.old }
    ensures { CleansAssemblerOut words.old expire_before out.old listed.old result listed.new words.new out.new }
{
    drucenal::assembler::drucenal_assembler_garbage_collect_before(
        words,
        expire_before,
        out,
        listed,
    )
}

#[unsafe(no_mangle)]
pub extern "C" fn drucenal_assembler_missing_frags_for(
    words: &[u64],
    number: i64,
    out: &mut [u32],
    listed: &mut usize,
) -> u32
    requires { GoodAssembler words.now }
    ensures { ListsFragmentsOut words.now (number_of number) out.old listed.old result listed.new out.new }
{
    drucenal::assembler::drucenal_assembler_missing_frags_for(words, number, out, listed)
}

#[unsafe(no_mangle)]
pub extern "C" fn drucenal_assembler_is_partially_received(words: &[u64], number: i64) -> bool
    requires { GoodAssembler words.now }
    ensures { result ≡ is_partially_received (assembler_of words.now).places (number_of number) }
{
    drucenal::assembler::drucenal_assembler_is_partially_received(words, number)
}

#[unsafe(no_mangle)]
pub extern "C" fn drucenal_assembler_in_assembly(words: &[u64]) -> usize
    requires { GoodAssembler words.now }
    ensures { result ≡ in_assembly (assembler_of words.now).places }
{
    drucenal::assembler::drucenal_assembler_in_assembly(words)
}
