// "Types: 1 Bool, 2 Integer, 3 Text."
ghost use Rattle.std.specs.Prelude.{◌≡◌};
ghost use Rattle.typing.specs.Types.{Decodes, number};

#[derive(Clone, Copy, PartialEq, Eq)]
pub enum ValueType {
    Bool,
    Integer,
    Text,
}

impl From<ValueType> for u16 {
    ghost from_gives = { λ t n. n ≡ number t };

    fn from(t: ValueType) -> u16 {
        match t {
            ValueType::Bool => 1,
            ValueType::Integer => 2,
            ValueType::Text => 3,
        }
    }
}

// A number that no type has: 0, which stands for none, or one past 3.
#[derive(Clone, Copy)]
pub struct NoType(pub u16);

impl TryFrom<u16> for ValueType {
    type Error = NoType;

    ghost try_from_gives = { Decodes };

    fn try_from(number: u16) -> Result<Self, NoType> {
        match number {
            1 => Ok(ValueType::Bool),
            2 => Ok(ValueType::Integer),
            3 => Ok(ValueType::Text),
            _ => Err(NoType(number)),
        }
    }
}
