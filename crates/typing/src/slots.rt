// The types of a rule's sixteen slots. Nothing here looks at a table.
ghost use Rattle.std.specs.Prelude.{◌≡◌, get_or, replicate, set};
ghost use Rattle.laws.specs.Same.{same};
ghost use Rattle.grammar.specs.Types.{assign};
ghost use Rattle.typing.specs.Slots.{told, types_in};
ghost use Rattle.typing.specs.Types.{number, number_if_any};

use crate::value_type::ValueType;

// One number, two bits to a slot, slot 0 lowest: the number of the slot's type, 0 where it is unset. So each number of 32 bits tells the types of sixteen slots.
#[derive(Clone, Copy)]
pub struct Slots {
    pub types: u32,
}

impl Slots {
    pub(crate) fn unset() -> Slots
        ensures { types_in result ≡ replicate 16 0 }
    {
        Slots { types: 0 }
    }

    // The type of a slot; a slot past the sixteen has none.
    pub(crate) fn type_of(self, s: u16) -> Option<ValueType>
        ensures { number_if_any result ≡ get_or (types_in self) s 0 }
    {
        if s < 16 {
            let number = (self.types >> (2 * u32::from(s))) % 4;
            ValueType::try_from(number as u16).ok()
        } else {
            None
        }
    }

    // An unset slot takes a type.
    pub(crate) fn with(self, s: u16, t: ValueType) -> Slots
        requires { get_or (types_in self) s 0 ≡ 0 }
        ensures { types_in result ≡ set (types_in self) s (number t) }
    {
        if s < 16 {
            let number = u32::from(u16::from(t));
            Slots {
                types: self.types + (number << (2 * u32::from(s))),
            }
        } else {
            self
        }
    }

    // "an unset slot takes the type; a set one must have it already"
    pub(crate) fn assigned(self, s: u16, t: ValueType) -> Option<Slots>
        ensures { told result ≡ assign (types_in self) s (number t) }
    {
        match self.type_of(s) {
            None => Some(self.with(s, t)),
            Some(old) if old == t => Some(self),
            Some(_) => None,
        }
    }

    // Have all slots the same types?
    pub(crate) fn same(self, other: Slots) -> bool
        ensures { result ≡ same (types_in self) (types_in other) }
    {
        self.types == other.types
    }
}
