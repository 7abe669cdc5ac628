// Plain enumeration of the points of a box of up to six variables, in lexicographic order. A value from 1 to t − 1 is none of a variable with threshold t.
//
// Sums and products wrap: a factor has at most 31 bits here, and a count does not come near the largest number.
use problem::Problem;
use std::iter;

// Where no solution was put in a buffer.
pub const MARK: i64 = -4611686018427387904;

// Solutions in order, n numbers for each, and marks past them: there is room for 128 of six variables.
#[derive(Clone, Copy)]
pub struct Solutions {
    numbers: [i64; 768],
    end: usize,
}

impl Solutions {
    // Puts the values of a solution's n variables, at most six, at the end.
    fn put(&mut self, x: &[i64; 32], n: usize) {
        let places = self.numbers.iter_mut().skip(self.end);
        for (place, value) in places.zip(x[..n.min(6)].iter()) {
            *place = *value;
        }
        self.end = self.end.saturating_add(n);
    }

    // Takes the last solution away.
    pub fn take_last(&mut self, n: usize) {
        self.end = self.end.saturating_sub(n);
        for place in self.numbers.iter_mut().skip(self.end) {
            *place = MARK;
        }
    }

    // Whether a buffer of marks has had these solutions put into it.
    pub fn are(&self, buffer: &[i64; 768]) -> bool {
        self.numbers == *buffer
    }
}

// What is found. A variable that the problem does not have is 0 at every point.
#[derive(Clone, Copy)]
pub struct Enumerated {
    pub points: usize,
    pub found: usize,
    pub first: Option<[i64; 32]>,
    pub last: Option<[i64; 32]>,
    pub solutions: Solutions,
}

// The value of a constraint at a point.
fn value(row: &[i64], x: &[i64; 32]) -> i64 {
    let Some((constant, coefficients)) = row.split_first() else {
        return 0;
    };
    let terms = coefficients.iter().zip(x[..6].iter());
    terms.fold(*constant, |sum, (a, v)| {
        sum.wrapping_add(a.wrapping_mul(*v))
    })
}

// Whether a constraint with a divisor, 0 for an inequality, is met where it has this value.
fn is_met(value: i64, divisor: i64) -> bool {
    match divisor.unsigned_abs() {
        0 => value <= 0,
        d => value.unsigned_abs() % d == 0,
    }
}

// Whether a point meets the constraints.
fn is_solution(p: &Problem, x: &[i64; 32]) -> bool {
    let rows = p.constraints.chunks_exact(33).zip(p.divisors.iter());
    rows.take(p.m)
        .all(|(row, divisor)| is_met(value(row, x), *divisor))
}

// The sum of hi − lo over the variables.
pub fn slack(p: &Problem) -> usize {
    let limits = p.lower.iter().zip(p.upper.iter());
    let sum = limits.fold(0i64, |sum, (lo, hi)| {
        sum.wrapping_add(hi.wrapping_sub(*lo))
    });
    sum.unsigned_abs() as usize
}

// The point after x; none after the last.
fn next(p: &Problem, x: &[i64; 32]) -> Option<[i64; 32]> {
    let mut next = *x;
    for i in (0..6).rev() {
        if next[i] < p.upper[i] {
            let step = if next[i] == 0 {
                p.thresholds[i].max(1)
            } else {
                1
            };
            next[i] = next[i].wrapping_add(step);
            return Some(next);
        }
        next[i] = p.lower[i];
    }
    None
}

// The points of a problem that has at most 127 of them.
pub fn enumerate(p: &Problem) -> Enumerated {
    let mut e = Enumerated {
        points: 0,
        found: 0,
        first: None,
        last: None,
        solutions: Solutions {
            numbers: [MARK; 768],
            end: 0,
        },
    };
    for x in iter::successors(Some(p.lower), |x| next(p, x)).take(128) {
        e.points = e.points.saturating_add(1);
        if is_solution(p, &x) {
            e.found = e.found.saturating_add(1);
            e.first = e.first.or(Some(x));
            e.last = Some(x);
            e.solutions.put(&x, p.n);
        }
    }
    e
}
