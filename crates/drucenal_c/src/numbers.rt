// One number, read and written.
ghost use Rattle.std.specs.Prelude.{length};
ghost use Rattle.sequence_number.specs.Kind.{sequence_number, fragment_number};
ghost use Rattle.sequence_number.specs.NumberWire.{read_number, write_number};
ghost use Rattle.drucenal.specs.Exports.{order_of, Gives, Lends};

#[unsafe(no_mangle)]
pub extern "C" fn drucenal_read_sequence_number(big: bool, bytes: &[u8], number: &mut i64) -> u32
    ensures { Gives (read_number sequence_number (order_of big) bytes.now) number.old result number.new }
{
    drucenal::numbers::drucenal_read_number::<i64>(big, bytes, number)
}

#[unsafe(no_mangle)]
pub extern "C" fn drucenal_write_sequence_number(big: bool, number: i64, out: &mut [u8]) -> u32
    ensures { Lends (write_number sequence_number (length out.old)) (sequence_number.number_bytes (order_of big) number) out.old result out.new }
{
    drucenal::numbers::drucenal_write_number::<i64>(big, number, out)
}

#[unsafe(no_mangle)]
pub extern "C" fn drucenal_read_fragment_number(big: bool, bytes: &[u8], number: &mut u32) -> u32
    ensures { Gives (read_number fragment_number (order_of big) bytes.now) number.old result number.new }
{
    drucenal::numbers::drucenal_read_number::<u32>(big, bytes, number)
}

#[unsafe(no_mangle)]
pub extern "C" fn drucenal_write_fragment_number(big: bool, number: u32, out: &mut [u8]) -> u32
    ensures { Lends (write_number fragment_number (length out.old)) (fragment_number.number_bytes (order_of big) number) out.old result out.new }
{
    drucenal::numbers::drucenal_write_number::<u32>(big, number, out)
}
