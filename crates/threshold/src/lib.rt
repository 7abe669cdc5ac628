// Document 02's N6: a variable with a threshold t may be 0 or less, or at least t; t is 0 where it may be any number. Bounds jump over the gap between.
#![tactic(auto)]

ghost use Rattle.std.specs.Prelude.{◌≡◌, ◌^◌};
ghost use Rattle.integer.specs.Size.{Within};
ghost use Rattle.model_problems.specs.Threshold.{in_gap, lifted, sunk, next_value};

pub mod range;

// Whether a number lies in the gap of threshold t: 1 to t − 1.
#[tactic(auto, unfolding(model_problems::specs::Threshold::in_gap))]
fn is_in_gap(t: i64, x: i64) -> bool
    ensures { result ≡ in_gap t x }
{
    (1..t).contains(&x)
}

// Where a lower bound rises that would become v.
#[tactic(auto, unfolding(model_problems::specs::Threshold::lifted))]
pub fn lift(t: i64, v: i64) -> i64
    ensures { result ≡ lifted t v }
{
    if is_in_gap(t, v) { t } else { v }
}

// Where an upper bound falls that would become v.
#[tactic(auto, unfolding(model_problems::specs::Threshold::sunk))]
pub fn sink(t: i64, v: i64) -> i64
    ensures { result ≡ sunk t v }
{
    if is_in_gap(t, v) { 0 } else { v }
}

// The value after v: where a flipped decision goes on.
#[tactic(auto, unfolding(model_problems::specs::Threshold::next_value))]
pub fn next_value(t: i64, v: i64) -> i64
    requires { Within (2 ^ 62) v }
    ensures { result ≡ next_value t v }
{
    lift(t, v + 1)
}
