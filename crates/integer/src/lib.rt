// The arithmetic of document 01's 'Lines and bounds'. Divisors are unsigned, as the model's are.
#![tactic(auto)]

ghost use Rattle.std.specs.Prelude.{◌≡◌, ◌<◌, ◌^◌, nat_abs};
ghost use Rattle.model_problems.specs.Division.{floor_div, ceil_div, exact_div, gcd as gcd_of};
ghost use Rattle.integer.specs.Size.{Within};
ghost use Rattle.integer.specs.Divisor.{Above};

// |z|.
pub fn magnitude(z: i64) -> u64
    ensures { result ≡ nat_abs z }
{
    z.unsigned_abs()
}

// z / d rounded down. Truncating division rounds a negative z up, so it divides z + 1 and takes 1 away.
// Stays: document 01's forms by place build floor and ceiling on truncating division, so no `div_euclid` here and in ceil_div.
pub fn floor_div(z: i64, d: u64) -> i64
    requires { (0 < d) × (d < 2 ^ 63) }
    ensures { (result ≡ floor_div z d) × Within (nat_abs z) result }
{
    let divisor = d as i64;
    if z < 0 {
        (z + 1) / divisor - 1
    } else {
        z / divisor
    }
}

// z / d rounded up. Truncating division rounds a positive z down, so it divides z - 1 and adds 1.
pub fn ceil_div(z: i64, d: u64) -> i64
    requires { (0 < d) × (d < 2 ^ 63) }
    ensures { (result ≡ ceil_div z d) × Within (nat_abs z) result }
{
    let divisor = d as i64;
    if 0 < z {
        (z - 1) / divisor + 1
    } else {
        z / divisor
    }
}

// z / d where d divides z.
pub fn exact_div(z: i64, d: u64) -> i64
    requires { (0 < d) × (d < 2 ^ 63) }
    ensures { (result ≡ exact_div d z) × Within (nat_abs z) result }
{
    z / (d as i64)
}

// The greatest common divisor, by Euclid's algorithm; of 0 and 0 it is 0. One that is at most `least`, and not 0, may be given as 1: it is no larger
// than a remainder, so a remainder that small is the end.
pub fn gcd_above(a: u64, b: u64, least: u64) -> u64
    ensures { Above least (gcd_of a b) result }
{
    let (mut x, mut y) = (a, b);
    while y != 0 {
        if y <= least {
            return 1;
        }
        (x, y) = (y, x % y);
    }
    x
}

// The greatest common divisor.
pub fn gcd(a: u64, b: u64) -> u64
    ensures { result ≡ gcd_of a b }
{
    gcd_above(a, b, 0)
}
