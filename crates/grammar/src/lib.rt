// The types that code and written meaning (specs/) share. No function stands here.
#![tactic(auto)]

// Where a Text stands: a part of the literals, or of the message.
#[derive(Clone, Copy)]
pub struct Span {
    pub literal: bool,
    pub start: u16,
    pub length: u16,
}

// A value of a run. An unset slot, and a place of the answer that holds none, is Absent.
#[derive(Clone, Copy)]
pub enum Value {
    Absent,
    Bool(bool),
    Integer(i32),
    Text(Span),
}

// The operators that take two Integers and give one.
#[derive(Clone, Copy)]
pub enum Arithmetic {
    Add,
    Subtract,
    Multiply,
    Divide,
}

// The operators of two operands.
#[derive(Clone, Copy)]
pub enum Operator {
    Calculate(Arithmetic),
    Equal,
    Greater,
    And,
    Or,
}

// Why arithmetic gives no number: "32-bit overflow or zero divisor".
#[derive(Clone, Copy)]
pub enum Fault {
    Overflow,
    ZeroDivisor,
}

// A node record, as code sees it: parts are node numbers. A kind that document 01 has no row for is Unknown.
#[derive(Clone, Copy)]
pub enum Node {
    Unknown,
    Empty,
    Terminal(u16),
    Sequence(u16, u16),
    Choice(u16, u16),
    Repeat(u16),
    Not(u16),
    Call(u16, u16, u16, u16, u16, u16, u16, u16, u16),
    Bind(u16, u16),
    Update(u16, u16),
    Constraint(u16),
    Bool(bool),
    Integer(i32),
    Text(u16, u16),
    Slot(u16),
    Binary(Operator, u16, u16),
    Negation(u16),
}

// Why the checks before a run refuse, and at which place.
#[derive(Clone, Copy)]
pub enum Refusal {
    Size,
    Field(u16),
    Use(u16),
    Start,
    Untyped(u16),
    Long,
    Work,
}

// Why a run ends at once.
#[derive(Clone, Copy)]
pub enum Ending {
    Budget,
    Deep,
    Stuck,
    Fault(Fault),
}

// A run that ends at once: why, and at which node.
#[derive(Clone, Copy)]
pub struct Ended {
    pub why: Ending,
    pub node: u16,
}

// What a run reads: a table's words and literals, and the message. They travel together through all of a run that reads more than the words.
#[derive(Clone, Copy)]
pub struct Inputs<'a> {
    pub words: &'a [u16],
    pub literals: &'a [u8],
    pub message: &'a [u8],
}

// "The answer record: number, place, consumed, visits, four values": by value, with enum values.
#[derive(Clone, Copy)]
pub struct Answer {
    pub number: u32,
    pub place: u32,
    pub consumed: u32,
    pub visits: u32,
    pub values: [Value; 4],
}

// A bench run takes any table of sound form; a display run only one that passes the type rules.
#[derive(Clone, Copy)]
pub enum Mode {
    Bench,
    Display,
}
