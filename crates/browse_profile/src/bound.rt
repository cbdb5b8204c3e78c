// Bounds: a number, or none.
ghost use Rattle.std.specs.Prelude.{◌≡◌};
ghost use Rattle.browse_profile.specs.Bounds.{larger, sum, less_one, only_if, times, all_replaced};

// The greatest number that bounds anything.
const LIMIT: u64 = 1 << 32;

/// The greater of two bounds.
pub fn larger(x: Option<u64>, y: Option<u64>) -> Option<u64>
    ensures { result ≡ larger x y }
{
    match (x, y) {
        (Some(a), Some(b)) => Some(if a < b { b } else { a }),
        _ => None,
    }
}

/// The sum of two bounds; what is above 2^32 bounds nothing.
pub fn sum(x: Option<u64>, y: Option<u64>) -> Option<u64>
    ensures { result ≡ sum x y }
{
    match (x, y) {
        (Some(a), Some(b)) => {
            if a <= LIMIT && b <= LIMIT && a + b <= LIMIT {
                Some(a + b)
            } else {
                None
            }
        }
        _ => None,
    }
}

/// One less than a bound.
pub fn less_one(x: Option<u64>) -> Option<u64>
    ensures { result ≡ less_one x }
{
    match x {
        Some(a) => Some(if a == 0 { 0 } else { a - 1 }),
        None => None,
    }
}

/// The bound where a case can be, else 0.
pub fn only_if(can: bool, x: Option<u64>) -> Option<u64>
    ensures { result ≡ only_if can x }
{
    if can { x } else { Some(0) }
}

/// The product of two bounds; what is above 2^32 bounds nothing.
pub fn times(x: Option<u64>, y: Option<u64>) -> Option<u64>
    ensures { result ≡ times x y }
{
    match (x, y) {
        (Some(a), Some(b)) => match a.checked_mul(b) {
            None => None,
            Some(n) => if n <= LIMIT { Some(n) } else { None },
        },
        _ => None,
    }
}

/// The bound of the cost of all of a list each stop of which is replaced by a list.
pub fn all_replaced(x: Option<u64>, y: Option<u64>) -> Option<u64>
    ensures { result ≡ all_replaced x y }
{
    times(x, larger(Some(1), y))
}
