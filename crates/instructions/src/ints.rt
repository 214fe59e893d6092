// Products and quotients of ints, by their bits.
ghost use Rattle.std.specs.Prelude.{◌≡◌, ◌-◌, ◌%◌, ◌≢◌, ◌*ℤ◌, int_div};
ghost use Rattle.definition.specs.Numbers.{int_range};
ghost use Rattle.definition.specs.Answers.{signed, int_bits};

use definition::numbers::{INT_RANGE, SIGN_BIT};

// The product of two ints.
pub(crate) fn product(x: u32, y: u32) -> u32
    ensures { result ≡ int_bits (signed x *ℤ signed y) }
{
    (x as usize * y as usize % INT_RANGE) as u32
}

// The int with the other sign; the least int and 0 are their own.
fn minus(n: u32) -> u32
    ensures { result ≡ (int_range - n) % int_range }
{
    ((INT_RANGE - n as usize) % INT_RANGE) as u32
}

// The quotient of two ints, toward zero: that of their magnitudes, negative where the signs differ.
pub(crate) fn quotient(x: u32, y: u32) -> u32
    requires { y ≢ 0 }
    ensures { result ≡ int_bits (int_div (signed x) (signed y)) }
{
    if x < SIGN_BIT {
        if y < SIGN_BIT {
            return x / y;
        }
        return minus(x / minus(y));
    }
    if y < SIGN_BIT {
        return minus(minus(x) / y);
    }
    minus(x) / minus(y)
}
