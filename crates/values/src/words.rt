// A signed 32-bit number as a word, in two's complement, and back.
ghost use Rattle.std.specs.Prelude.{◌≡◌};
ghost use Rattle.grammar.specs.Words.{signed};
ghost use Rattle.values.specs.Words.{word_of, integer_of};

pub fn word_of(z: i32) -> u32
    ensures { result ≡ word_of z }
{
    z.cast_unsigned()
}

pub fn integer_of(word: u32) -> i32
    ensures { result ≡ integer_of word }
{
    word.cast_signed()
}

// Of a table's two words: "high word, low word, signed 32-bit two's complement".
pub fn signed_of(high: u16, low: u16) -> i32
    ensures { result ≡ signed high low }
{
    integer_of(u32::from(high) * 65536 + u32::from(low))
}
