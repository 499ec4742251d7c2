// The values that stand in a line as words.
use sequence_number::ByteOrder;

// A value by its word.
pub(crate) trait Word: Copy {
    // The value of a word: its low bits, save that i32, bool and ByteOrder have a rule of their own, which stands beside them.
    fn of(word: u64) -> Self;

    // The word of the value: a signed number's two's complement bits.
    fn word(self) -> u64;
}

impl Word for u8 {
    fn of(word: u64) -> u8 {
        (word & 0xff) as u8
    }

    fn word(self) -> u64 {
        u64::from(self)
    }
}

impl Word for u16 {
    fn of(word: u64) -> u16 {
        (word & 0xffff) as u16
    }

    fn word(self) -> u64 {
        u64::from(self)
    }
}

impl Word for u32 {
    fn of(word: u64) -> u32 {
        (word & 0xffff_ffff) as u32
    }

    fn word(self) -> u64 {
        u64::from(self)
    }
}

impl Word for u64 {
    fn of(word: u64) -> u64 {
        word
    }

    fn word(self) -> u64 {
        self
    }
}

impl Word for usize {
    fn of(word: u64) -> usize {
        word as usize
    }

    fn word(self) -> u64 {
        self as u64
    }
}

impl Word for i64 {
    fn of(word: u64) -> i64 {
        word.cast_signed()
    }

    fn word(self) -> u64 {
        self.cast_unsigned()
    }
}

// A word past the type is 0, not cut.
impl Word for i32 {
    fn of(word: u64) -> i32 {
        i32::try_from(word.cast_signed()).unwrap_or(0)
    }

    fn word(self) -> u64 {
        i64::from(self).cast_unsigned()
    }
}

// Yes is 1, reliable or rising; any other word is no.
impl Word for bool {
    fn of(word: u64) -> bool {
        word == 1
    }

    fn word(self) -> u64 {
        u64::from(self)
    }
}

// 0 is big, 1 little; any other word is little.
impl Word for ByteOrder {
    fn of(word: u64) -> ByteOrder {
        match word {
            0 => ByteOrder::Big,
            _ => ByteOrder::Little,
        }
    }

    fn word(self) -> u64 {
        match self {
            ByteOrder::Big => 0,
            ByteOrder::Little => 1,
        }
    }
}
