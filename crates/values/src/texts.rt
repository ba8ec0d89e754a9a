// The bytes of a Text, where it stands.
ghost use Rattle.std.specs.Prelude.{◌≡◌};
ghost use Rattle.grammar.specs.Values.{text_bytes, same_texts};
ghost use Rattle.values.specs.Texts.{text_place};

use grammar::{Span, Value};

// "its bytes are handed out as a part of the message or of the literals, never a copy. Asking for the bytes of an absent or other value, or of
// a part that doesn't fit the slice it names, gives an empty part at the start of the message."
pub fn text_bytes<'a>(message: &'a [u8], literals: &'a [u8], value: Value) -> &'a [u8]
    ensures bytes { result.now ≡ text_bytes message.now literals.now value }
    ensures place { result.ref_ptr ≡ text_place message.entry literals.entry value }
{
    match value {
        // Not by `get` (iii): its contract doesn't tell where the part stands, and clause `place` does.
        Value::Text(s) => {
            let part = if s.literal { literals } else { message };
            let start = usize::from(s.start);
            let end = start + usize::from(s.length);
            if end <= part.len() {
                return &part[start..end];
            }
            &message[..0]
        }
        _ => &message[..0],
    }
}

// "Two Texts are equal when their bytes are the same, wherever they stand."
pub fn same_texts<'a>(message: &'a [u8], literals: &'a [u8], s: Span, t: Span) -> bool
    ensures { result ≡ same_texts message.now literals.now s t }
{
    let x = text_bytes(message, literals, Value::Text(s));
    let y = text_bytes(message, literals, Value::Text(t));
    x == y
}
