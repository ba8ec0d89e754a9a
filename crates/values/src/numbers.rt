// Signed 32-bit arithmetic that says why there is no number.
ghost use Rattle.std.specs.Prelude.{◌≡◌};
ghost use Rattle.std.specs.Int.Signed.{lt_z};
ghost use Rattle.grammar.specs.Values.{quotient, calculated, same_integer};

use grammar::{Arithmetic, Fault};

// "Negative division drops the fraction, toward zero": the signed 32-bit quotient, behind its two guards. The smallest number by -1 would be 2147483648, and checked_div gives none.
fn divide(a: i32, b: i32) -> Result<i32, Fault>
    ensures { result ≡ quotient a b }
{
    if b == 0 {
        return Err(Fault::ZeroDivisor);
    }
    a.checked_div(b).ok_or(Fault::Overflow)
}

pub fn calculate(op: Arithmetic, a: i32, b: i32) -> Result<i32, Fault>
    ensures { result ≡ calculated op a b }
{
    match op {
        Arithmetic::Add => a.checked_add(b).ok_or(Fault::Overflow),
        Arithmetic::Subtract => a.checked_sub(b).ok_or(Fault::Overflow),
        Arithmetic::Multiply => a.checked_mul(b).ok_or(Fault::Overflow),
        Arithmetic::Divide => divide(a, b),
    }
}

pub fn same_integer(a: i32, b: i32) -> bool
    ensures { result ≡ same_integer a b }
{
    a == b
}

pub fn greater(a: i32, b: i32) -> bool
    ensures { result ≡ lt_z b a }
{
    a > b
}
