// Decimal numbers at the front of a lent buffer: each function answers how many bytes it wrote. Not by `write!`, which may answer an error by its contract.
ghost use Rattle.std.specs.Prelude.{◌≡◌, map, ◌*◌, ◌<◌, ◌≤◌, length};
ghost use Rattle.outcome.specs.Lent.{over};
ghost use Rattle.sequence_number.specs.Number.{nat_of};
ghost use Rattle.line_text.specs.Decimal.{digits, spaced_number, spaced};

use itoa::Buffer;
use sequence_number::number::natural;

// The digits of a number that has one or two, without the library, which clears 40 bytes and copies out of them however few the digits are:
// a number of one digit took 6 ns more by it, one of two digits a sixth more. From three digits on it is the faster.
fn put_few(out: &mut [u8], n: u64) -> usize
    requires { (n < 100) × (length (digits n) ≤ length out.old) }
    ensures { (out.new ≡ over (digits n) out.old) × (result ≡ length (digits n)) }
{
    if n < 10 {
        out[0] = b'0' + n as u8;
        return 1;
    }
    out[0] = b'0' + (n / 10) as u8;
    out[1] = b'0' + (n % 10) as u8;
    2
}

// The digits of n by the library. It is called and not inlined, so that a number of one digit or two sets up no frame for the 40 bytes: 7
// instructions in place of 14.
#[inline(never)]
fn put_many(out: &mut [u8], n: u64) -> usize
    requires { length (digits n) ≤ length out.old }
    ensures { (out.new ≡ over (digits n) out.old) × (result ≡ length (digits n)) }
{
    let mut buffer = Buffer::new();
    let text = buffer.format(n).as_bytes();
    out[..text.len()].copy_from_slice(text);
    text.len()
}

// The digits of n.
pub fn put_number(out: &mut [u8], n: u64) -> usize
    requires { length (digits n) ≤ length out.old }
    ensures { (out.new ≡ over (digits n) out.old) × (result ≡ length (digits n)) }
{
    if n < 100 {
        return put_few(out, n);
    }
    put_many(out, n)
}

// A space and the digits of n.
pub fn put_next(out: &mut [u8], n: u64) -> usize
    requires { length (spaced_number n) ≤ length out.old }
    ensures { (out.new ≡ over (spaced_number n) out.old) × (result ≡ length (spaced_number n)) }
{
    out[0] = b' ';
    1 + put_number(&mut out[1..], n)
}

// The numbers of a list, a space before each.
pub fn put_list(out: &mut [u8], list: &[i64]) -> usize
    requires { 20 * length list.now ≤ length out.old }
    ensures { (out.new ≡ over (spaced (map nat_of list.now)) out.old) × (result ≡ length (spaced (map nat_of list.now))) × (result ≤ 20 * length list.now) }
{
    let mut end = 0;
    for n in list {
        end += put_next(&mut out[end..], natural(*n));
    }
    end
}
