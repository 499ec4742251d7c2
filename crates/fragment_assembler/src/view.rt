// A returned sample shown in the lent area, never copied.
ghost use Rattle.std.specs.Prelude.{◌≡◌};
ghost use Rattle.assembly_record.specs.Words.{assembler_of};
ghost use Rattle.assembly_record.specs.Rules.{GoodAssembler};
ghost use Rattle.fragment_assembler.specs.View.{viewed, view_start};
ghost use Rattle.fragment_assembler.specs.Inner.{shown_from};

use assembly_record::layout::PLACE_SIZE;

// Where a part of so many bytes from a place on begins, if it ends within an area of `long` bytes.
fn shown_from(t: &[u64], long: usize, place: usize, length: usize) -> Option<usize>
    requires { GoodAssembler t.now }
    ensures { result ≡ shown_from (assembler_of t.now) long place length }
{
    let at = place.checked_mul(t[PLACE_SIZE] as usize)?;
    let end = at.checked_add(length)?;
    (end <= long).then_some(at)
}

// A returned sample, as a part of the lent area; the empty part where it would pass the area's end.
pub fn view<'a>(t: &[u64], area: &'a [u8], place: usize, length: usize) -> &'a [u8]
    requires { GoodAssembler t.now }
    ensures { result.now ≡ viewed (assembler_of t.now) area.now place length }
{
    match shown_from(t, area.len(), place, length) {
        Some(at) => &area[at..at + length],
        None => &area[..0],
    }
}

// Where the part that `view` shows begins in an area of `long` bytes; 0 where it would pass the area's end.
pub fn view_start(t: &[u64], long: usize, place: usize, length: usize) -> usize
    requires { GoodAssembler t.now }
    ensures { result ≡ view_start (assembler_of t.now) long place length }
{
    shown_from(t, long, place, length).unwrap_or(0)
}
