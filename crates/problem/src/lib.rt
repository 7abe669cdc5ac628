// Problems, document 01's 'plans', the refusals with their numbers, and the tests of a problem's numbers that reading, writing and opening share.
#![tactic(auto)]

ghost use Rattle.std.specs.Prelude.{◌≡◌};
ghost use Rattle.model_acceptance.specs.Acceptable.{problem_error};
ghost use Rattle.problem.specs.Answer.{number, number_of};
ghost use Rattle.problem.specs.View.{problem_of};

use layout::range::{are_bounds_in_range, are_divisors_in_range, are_in_range, sizes_in_range};
use threshold::range::all_fit;

// A problem, document 01's 'plan'. Its constraints lie in 64 rows of 33 numbers: the constant, then a coefficient for each of 32 variables. What stands
// past the first n variables and m constraints is ignored; a problem that was read has zeros there.
// Stays: flat arrays with n and m beside them, by value (document 01's forms by place, no heap); 0 for no divisor and for no threshold, as in a file.
#[derive(Clone, Copy)]
pub struct Problem {
    // 'n', the variables
    pub n: usize,
    // 'm', the constraints
    pub m: usize,
    // 'B'
    pub budget: usize,
    // the 'limits' of each variable
    pub lower: [i64; 32],
    pub upper: [i64; 32],
    pub constraints: [i64; 2112],
    // the divisor of each constraint, 0 for an inequality
    pub divisors: [i64; 64],
    // the threshold of each variable, 0 for none
    pub thresholds: [i64; 32],
}

// Why a call is refused: document 01's table with document 02's 10 and 13, 1 to 10 and 13 in this order.
#[derive(Clone, Copy, Debug, PartialEq, Eq)]
pub enum Refusal {
    Truncated,
    BadChecksum,
    BadMagic,
    SizeRange,
    DomainRange,
    CoefficientRange,
    NonzeroPadding,
    ShortBuffer,
    InvalidSearch,
    DivisorRange,
    ThresholdRange,
}

impl Refusal {
    // Its number in the documents' tables.
    #[tactic(auto, unfolding(crate::specs::Answer::number))]
    pub fn number(self) -> usize
        ensures { result ≡ number self }
    {
        match self {
            Refusal::Truncated => 1,
            Refusal::BadChecksum => 2,
            Refusal::BadMagic => 3,
            Refusal::SizeRange => 4,
            Refusal::DomainRange => 5,
            Refusal::CoefficientRange => 6,
            Refusal::NonzeroPadding => 7,
            Refusal::ShortBuffer => 8,
            Refusal::InvalidSearch => 9,
            Refusal::DivisorRange => 10,
            Refusal::ThresholdRange => 13,
        }
    }
}

// Whether a problem is acceptable, or else the first refusal that applies, in the order 4, 5, 13, 6, 10, which is what writing it into a long buffer answers.
pub fn check(problem: Problem) -> Result<(), Refusal>
    ensures { number_of result ≡ problem_error (problem_of problem) }
{
    let n = problem.n;
    let m = problem.m;
    if !sizes_in_range(n, m, problem.budget) {
        return Err(Refusal::SizeRange);
    }
    if !are_bounds_in_range(&problem.lower, &problem.upper, n) {
        return Err(Refusal::DomainRange);
    }
    if !all_fit(&problem.thresholds, &problem.lower, &problem.upper, n) {
        return Err(Refusal::ThresholdRange);
    }
    if !are_in_range(&problem.constraints, m, n) {
        return Err(Refusal::CoefficientRange);
    }
    if !are_divisors_in_range(&problem.divisors, m) {
        return Err(Refusal::DivisorRange);
    }
    Ok(())
}
