// The bytes of a line, held as they come, and never more than there is room for.
ghost use Rattle.std.specs.Prelude.{◌≡◌, length, take};
ghost use Rattle.line_text.specs.Held.{holding, held_line, held_on};

// One byte more among the first count of those lent, where there is room, and else passed over: how many are held then. It stays beside
// `Held`, which holds an array, since it takes any slice.
#[tactic(auto, unfolding(crate::specs::Held::held_on))]
pub fn hold(held: &mut [u8], count: usize, byte: u8) -> usize
    ensures { holding held.new result ≡ held_on byte (holding held.old count) }
{
    if count < held.len() {
        held[count] = byte;
        return count + 1;
    }
    count
}

// Room for the bytes of a line, and how many are held; a count past the room holds them all. A line is not copied, so it derives no `Clone`.
#[derive(Drop)]
pub struct Held<const N: usize> {
    pub bytes: [u8; N],
    pub count: usize,

    // True of any such array, and known by this where a line is a part of something else.
    pub ghost whole: { length bytes ≡ N },
}

impl<const N: usize> Held<N> {
    // One byte more, held where there is room and else passed over.
    pub fn push(&mut self, byte: u8)
        ensures { holding self.new.bytes self.new.count ≡ held_on byte (holding self.old.bytes self.old.count) }
    {
        self.count = hold(&mut self.bytes, self.count, byte);
    }

    // The bytes that are held.
    pub fn line(&self) -> &[u8]
        ensures { result.now ≡ held_line (holding self.now.bytes self.now.count) }
    {
        front(&self.bytes, self.count)
    }
}

// The first count bytes, or all where there are no more: of any slice, so that it is no method of `Held`.
pub fn front(bytes: &[u8], count: usize) -> &[u8]
    ensures { result.now ≡ take count bytes.now }
{
    bytes.get(..count).unwrap_or(bytes)
}
