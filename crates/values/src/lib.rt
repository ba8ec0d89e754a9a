// Values: 32-bit arithmetic, two's complement words, the bytes of a Text where they stand, and slots in a lent area of words.
#![tactic(auto)]

pub mod numbers;
pub mod slots;
pub mod texts;
pub mod words;
