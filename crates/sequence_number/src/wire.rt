// One number, of either kind, read and written in either byte order.
ghost use Rattle.std.specs.Prelude.{◌≡◌};
ghost use Rattle.outcome.specs.Refusal.{said};
ghost use Rattle.sequence_number.specs.NumberWire.{read_number, Writes};

use crate::ByteOrder;
use crate::kind::Number;
use outcome::Refusal;

// The number at the front of the bytes.
pub fn read_number<N: Number>(o: ByteOrder, s: &[u8]) -> Result<N, Refusal>
    ensures { said result ≡ read_number N.kind o s.now }
{
    if s.len() < N::SIZE {
        return Err(Refusal::EndsEarly);
    }
    Ok(N::read(o, s, 0))
}

// The number to the front of the lent bytes, and how many were written.
pub fn write_number<N: Number>(o: ByteOrder, n: N, out: &mut [u8]) -> Result<usize, Refusal>
    ensures { Writes N.kind o n out.old result out.new }
{
    if out.len() < N::SIZE {
        return Err(Refusal::ShortOutput);
    }
    n.write(o, out, 0);
    Ok(N::SIZE)
}
