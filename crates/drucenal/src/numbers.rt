// One number of either kind, read and written.
ghost use Rattle.std.specs.Prelude.{◌≡◌, length};
ghost use Rattle.outcome.specs.Outcome.{refusal};
ghost use Rattle.outcome.specs.Refusal.{said};
ghost use Rattle.sequence_number.specs.NumberWire.{read_number, write_number};
ghost use Rattle.drucenal.specs.Exports.{order_of, Gives, Lends};

use outcome::Refusal;
use sequence_number::ByteOrder;
use sequence_number::kind::Number;

// big: the most significant byte of a word first. C passes a bool.
pub(crate) fn order_of(big: bool) -> ByteOrder
    ensures { result ≡ order_of big }
{
    if big {
        return ByteOrder::Big;
    }
    ByteOrder::Little
}

// A refusal's number, or 0.
pub(crate) fn refusal_number<T: Drop>(found: Result<T, Refusal>) -> u32
    ensures { result ≡ refusal (said found) }
{
    match found {
        Ok(_) => 0,
        Err(refusal) => refusal.into(),
    }
}

// A refusal's number, or 0 and what was found behind the reference.
pub(crate) fn give<T: Drop>(found: Result<T, Refusal>, to: &mut T) -> u32
    ensures { Gives (said found) to.old result to.new }
{
    match found {
        Ok(value) => {
            *to = value;
            0
        }
        Err(refusal) => refusal.into(),
    }
}

pub fn drucenal_read_number<N: Number>(big: bool, bytes: &[u8], number: &mut N) -> u32
    ensures { Gives (read_number N.kind (order_of big) bytes.now) number.old result number.new }
{
    give(
        sequence_number::wire::read_number(order_of(big), bytes),
        number,
    )
}

pub fn drucenal_write_number<N: Number>(big: bool, n: N, out: &mut [u8]) -> u32
    ensures { Lends (write_number N.kind (length out.old)) (N.kind.number_bytes (order_of big) n) out.old result out.new }
{
    refusal_number(sequence_number::wire::write_number(order_of(big), n, out))
}
