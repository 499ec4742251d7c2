// Number sets of both widths: read, written, made, walked, measured. A set goes in and out by its parts.
ghost use Rattle.std.specs.Prelude.{length};
ghost use Rattle.sequence_number.specs.Kind.{sequence_number, fragment_number};
ghost use Rattle.number_set.specs.NumberSet.{members};
ghost use Rattle.number_set.specs.SetWire.{read_set, write_set, set_bytes, measure_set};
ghost use Rattle.number_set.specs.Make.{make_set};
ghost use Rattle.number_set.specs.Walk.{walk_set, in_order};
ghost use Rattle.drucenal.specs.Exports.{order_of, Gives, Lends, set_of, taken_of};

#[unsafe(no_mangle)]
pub extern "C" fn drucenal_read_sequence_number_set(
    big: bool,
    bytes: &[u8],
    base: &mut i64,
    count: &mut u32,
    words: &mut [u32; 8],
    taken: &mut usize,
) -> u32
    ensures { Gives (read_set sequence_number (order_of big) bytes.now) (taken_of base.old count.old words.old taken.old) result (taken_of base.new count.new words.new taken.new) }
{
    drucenal::sets::drucenal_read_number_set::<i64>(big, bytes, base, count, words, taken)
}

#[unsafe(no_mangle)]
pub extern "C" fn drucenal_write_sequence_number_set(
    big: bool,
    base: i64,
    count: u32,
    words: &[u32; 8],
    out: &mut [u8],
    wrote: &mut usize,
) -> u32
    ensures gives { Gives (write_set 8 count (length out.old)) wrote.old result wrote.new }
    ensures lends { Lends (write_set 8 count (length out.old)) (set_bytes sequence_number (order_of big) (set_of base count words.now)) out.old result out.new }
{
    drucenal::sets::drucenal_write_number_set::<i64>(big, base, count, words, out, wrote)
}

#[unsafe(no_mangle)]
pub extern "C" fn drucenal_make_sequence_number_set(
    base: i64,
    list: &[i64],
    low: &mut i64,
    count: &mut u32,
    words: &mut [u32; 8],
) -> u32
    ensures { Gives (make_set sequence_number base list.now) (set_of low.old count.old words.old) result (set_of low.new count.new words.new) }
{
    drucenal::sets::drucenal_make_number_set::<i64>(base, list, low, count, words)
}

#[unsafe(no_mangle)]
pub extern "C" fn drucenal_walk_sequence_number_set(
    rising: bool,
    base: i64,
    count: u32,
    words: &[u32; 8],
    out: &mut [i64],
    listed: &mut usize,
) -> u32
    ensures gives { Gives (walk_set sequence_number (set_of base count words.now) (length out.old)) listed.old result listed.new }
    ensures lends { Lends (walk_set sequence_number (set_of base count words.now) (length out.old)) (in_order rising (members sequence_number (set_of base count words.now))) out.old result out.new }
{
    drucenal::sets::drucenal_walk_number_set::<i64>(rising, base, count, words, out, listed)
}

#[unsafe(no_mangle)]
pub extern "C" fn drucenal_measure_sequence_number_set(count: u32, length: &mut usize) -> u32
    ensures { Gives (measure_set 8 count) length.old result length.new }
{
    drucenal::sets::drucenal_measure_number_set::<i64>(count, length)
}

#[unsafe(no_mangle)]
pub extern "C" fn drucenal_read_fragment_number_set(
    big: bool,
    bytes: &[u8],
    base: &mut u32,
    count: &mut u32,
    words: &mut [u32; 8],
    taken: &mut usize,
) -> u32
    ensures { Gives (read_set fragment_number (order_of big) bytes.now) (taken_of base.old count.old words.old taken.old) result (taken_of base.new count.new words.new taken.new) }
{
    drucenal::sets::drucenal_read_number_set::<u32>(big, bytes, base, count, words, taken)
}

#[unsafe(no_mangle)]
pub extern "C" fn drucenal_write_fragment_number_set(
    big: bool,
    base: u32,
    count: u32,
    words: &[u32; 8],
    out: &mut [u8],
    wrote: &mut usize,
) -> u32
    ensures gives { Gives (write_set 4 count (length out.old)) wrote.old result wrote.new }
    ensures lends { Lends (write_set 4 count (length out.old)) (set_bytes fragment_number (order_of big) (set_of base count words.now)) out.old result out.new }
{
    drucenal::sets::drucenal_write_number_set::<u32>(big, base, count, words, out, wrote)
}

#[unsafe(no_mangle)]
pub extern "C" fn drucenal_make_fragment_number_set(
    base: u32,
    list: &[u32],
    low: &mut u32,
    count: &mut u32,
    words: &mut [u32; 8],
) -> u32
    ensures { Gives (make_set fragment_number base list.now) (set_of low.old count.old words.old) result (set_of low.new count.new words.new) }
{
    drucenal::sets::drucenal_make_number_set::<u32>(base, list, low, count, words)
}

#[unsafe(no_mangle)]
pub extern "C" fn drucenal_walk_fragment_number_set(
    rising: bool,
    base: u32,
    count: u32,
    words: &[u32; 8],
    out: &mut [u32],
    listed: &mut usize,
) -> u32
    ensures gives { Gives (walk_set fragment_number (set_of base count words.now) (length out.old)) listed.old result listed.new }
    ensures lends { Lends (walk_set fragment_number (set_of base count words.now) (length out.old)) (in_order rising (members fragment_number (set_of base count words.now))) out.old result out.new }
{
    drucenal::sets::drucenal_walk_number_set::<u32>(rising, base, count, words, out, listed)
}

#[unsafe(no_mangle)]
pub extern "C" fn drucenal_measure_fragment_number_set(count: u32, length: &mut usize) -> u32
    ensures { Gives (measure_set 4 count) length.old result length.new }
{
    drucenal::sets::drucenal_measure_number_set::<u32>(count, length)
}
