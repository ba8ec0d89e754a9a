// The kinds of node records, by document 01's numbers.
ghost use Rattle.std.specs.Prelude.{◌≡◌};
ghost use Rattle.table.specs.Kinds.{kind_of};

// 1 to 10 are parsing nodes, 16 to 28 expressions. Every other number is no kind: Unknown.
#[derive(Clone, Copy, PartialEq, Eq)]
pub enum Kind {
    Unknown,
    Empty,
    Terminal,
    Sequence,
    Choice,
    Repeat,
    Not,
    Call,
    Bind,
    Update,
    Constraint,
    Bool,
    Integer,
    Text,
    Slot,
    Add,
    Subtract,
    Multiply,
    Divide,
    Equal,
    Greater,
    And,
    Or,
    Negation,
}

impl From<u16> for Kind {
    ghost from_gives = { λ number kind. kind ≡ kind_of number };

    fn from(number: u16) -> Self {
        match number {
            1 => Kind::Empty,
            2 => Kind::Terminal,
            3 => Kind::Sequence,
            4 => Kind::Choice,
            5 => Kind::Repeat,
            6 => Kind::Not,
            7 => Kind::Call,
            8 => Kind::Bind,
            9 => Kind::Update,
            10 => Kind::Constraint,
            16 => Kind::Bool,
            17 => Kind::Integer,
            18 => Kind::Text,
            19 => Kind::Slot,
            20 => Kind::Add,
            21 => Kind::Subtract,
            22 => Kind::Multiply,
            23 => Kind::Divide,
            24 => Kind::Equal,
            25 => Kind::Greater,
            26 => Kind::And,
            27 => Kind::Or,
            28 => Kind::Negation,
            _ => Kind::Unknown,
        }
    }
}
