// Families of problems of up to six variables and six constraints. Problem k of a family has the digits of k, the least first: the box of each variable,
// the divisor of each constraint that has one, then the constant and the coefficients of each constraint.
ghost use Rattle.std.specs.Prelude.{◌<◌, IfSome};

use problem::Problem;
use std::fmt;

// Limits and a threshold. The last seven boxes have limits from 0, and most have a threshold.
const BOXES: [(i64, i64, i64); 14] = [
    (0, 1, 0),
    (-1, 1, 0),
    (0, 2, 0),
    (-1, 0, 0),
    (-1, 2, 0),
    (0, 0, 0),
    (-1, -1, 0),
    (0, 4, 0),
    (0, 4, 2),
    (0, 4, 3),
    (0, 4, 4),
    (0, 2, 2),
    (0, 5, 3),
    (0, 5, 5),
];

const DIVISORS: [i64; 5] = [2, 3, 4, 6, 1048576];

// A family as its line has it.
// Stays: numbers for flags, since a line may have any number there and is printed with it.
#[derive(Clone, Copy)]
pub struct Family {
    variables: usize,
    constraints: usize,
    // 1 if each second constraint is the one before it with its signs changed, so that the two are an equation, else 0
    equations: usize,
    // so many of the last constraints have one of the divisors
    divided: usize,
    // so many of the first variables have one of the last seven boxes
    gaps: usize,
    // each other variable has one of the first so many boxes
    boxes: usize,
    // 1 if the boxes are moved to the ends of the limits' range, the first to 2^24, the second to −2^24, and so on, else 0
    far: usize,
    // coefficients and constants lie from minus this number, at most 3, to it
    coefficient: usize,
    constant: usize,
    // 1 if some problems are tried, with numbers by the generator, 0 if every one is, numbered from 0
    random: usize,
    // how many problems are tried
    problems: usize,
}

impl fmt::Display for Family {
    fn fmt<W: fmt::Write>(&self, f: &mut fmt::Formatter<W>) -> fmt::Result {
        let Family {
            variables,
            constraints,
            equations,
            divided,
            gaps,
            boxes,
            far,
            coefficient,
            constant,
            random,
            problems,
        } = *self;
        write!(
            f,
            "{variables} {constraints} {equations} {divided} {gaps} {boxes} {far} {coefficient} {constant} {random} {problems}"
        )
    }
}

// The digits of a number that are left.
#[derive(Drop)]
struct Digits(usize);

impl Digits {
    // The next digit, of so many values.
    fn next(&mut self, values: usize) -> Option<usize>
        ensures { IfSome result (λ d. d < values) }
    {
        if values == 0 {
            return None;
        }
        let digit = self.0 % values;
        self.0 = self.0 / values;
        Some(digit)
    }
}

// A step of a linear congruential generator.
fn next(seed: u32) -> u32 {
    seed.wrapping_mul(1664525).wrapping_add(1013904223)
}

impl Family {
    // The family of a line of eleven numbers. Every line has one: a byte is the digit that it is modulo 16, and a twelfth word goes on with the first number.
    pub fn parse(line: &[u8]) -> Family {
        let mut numbers = [0usize; 11];
        for (column, word) in line.split(|byte| *byte == b' ').enumerate() {
            for byte in word {
                let number = numbers[column % 11];
                numbers[column % 11] = number % 65536 * 10 + (*byte % 16) as usize;
            }
        }
        Family {
            variables: numbers[0],
            constraints: numbers[1],
            equations: numbers[2],
            divided: numbers[3],
            gaps: numbers[4],
            boxes: numbers[5],
            far: numbers[6],
            coefficient: numbers[7],
            constant: numbers[8],
            random: numbers[9],
            problems: numbers[10],
        }
    }

    // How many problems are tried.
    pub fn tried(&self) -> u32 {
        (self.problems % 65536) as u32
    }

    // The number of the i-th problem that is tried: i, or 64 bits made of the two steps of the generator after i.
    pub fn number(&self, i: u32) -> usize {
        if self.random == 0 {
            return i as usize;
        }
        let high = next(i);
        (high as usize) << 32 | next(high) as usize
    }

    // How many values the digit for the box of variable i has.
    fn box_values(&self, i: usize) -> usize {
        if i < self.gaps {
            7
        } else if i < self.variables {
            self.boxes
        } else {
            0
        }
    }

    // How many values the digit for the divisor of constraint j has.
    fn divisor_values(&self, j: usize) -> usize {
        let is_divided = j < self.constraints && self.constraints <= j.saturating_add(self.divided);
        if is_divided { DIVISORS.len() } else { 0 }
    }

    // What the box of variable i is moved back by: far out none goes past the end of the range, and the widest touch it.
    fn back(&self, i: usize) -> i64 {
        match (self.far % 2, i % 2) {
            (0, _) => 0,
            (_, 0) => -16777214,
            _ => 16777215,
        }
    }

    // Gives variable i the box of digit d.
    fn put_box(&self, p: &mut Problem, i: usize, d: usize) {
        let b = if i < self.gaps { d % 7 + 7 } else { d % 14 };
        let (lower, upper, threshold) = BOXES[b];
        p.lower[i % 6] = lower.wrapping_sub(self.back(i));
        p.upper[i % 6] = upper.wrapping_sub(self.back(i));
        p.thresholds[i % 6] = threshold;
    }

    // The row of a constraint. Where boxes are far out, its constant leaves it what it was at the points moved back.
    fn row(&self, digits: &mut Digits) -> [i64; 33] {
        let mut row = [0i64; 33];
        for i in 0..7 {
            let reach = if i == 0 {
                self.constant % 4
            } else {
                self.coefficient % 4
            };
            if self.variables < i {
                break;
            }
            if let Some(d) = digits.next(2 * reach + 1) {
                row[i] = d as i64 - reach as i64;
            }
            if 0 < i {
                row[0] = row[0].wrapping_add(row[i].wrapping_mul(self.back(i - 1)));
            }
        }
        row
    }

    // The rows of the constraints.
    fn rows(&self, digits: &mut Digits) -> [i64; 2112] {
        let mut rows = [0i64; 2112];
        let mut row = [0i64; 33];
        for j in 0..self.constraints.min(6) {
            row = if self.equations == 1 && j % 2 == 1 {
                row.map(|number| number.wrapping_neg())
            } else {
                self.row(digits)
            };
            rows[33 * j..33 * (j + 1)].copy_from_slice(&row);
        }
        rows
    }

    // Problem k of the family. A seventh variable's box and a seventh constraint's divisor go to the first.
    pub fn problem(&self, k: usize) -> Problem {
        let mut p = Problem {
            n: self.variables,
            m: self.constraints,
            budget: 0,
            lower: [0; 32],
            upper: [0; 32],
            constraints: [0; 2112],
            divisors: [0; 64],
            thresholds: [0; 32],
        };
        let mut digits = Digits(k);
        for i in 0..7 {
            if let Some(d) = digits.next(self.box_values(i)) {
                self.put_box(&mut p, i, d);
            }
        }
        for j in 0..7 {
            if let Some(d) = digits.next(self.divisor_values(j)) {
                p.divisors[j % 6] = DIVISORS[d % DIVISORS.len()];
            }
        }
        p.constraints = self.rows(&mut digits);
        p
    }
}
