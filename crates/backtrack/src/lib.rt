// Decisions and backjumps: what is tracked of the constraints is saved for each level that a decision leaves, and taken back when the search goes back
// to it.
#![tactic(auto)]

ghost use Rattle.std.specs.Prelude.{◌≡◌, ℕ, ◌+◌, ◌≤◌, ◌<◌, List, ℤ, ◌-ℤ◌, get_or, replicate};
ghost use Rattle.model_problems.specs.Ranges.{max_variables, max_constraints, max_budget};
ghost use Rattle.integer.specs.Size.{Within};
ghost use Rattle.linear.specs.Ranges.{widest_bound, widest_change};
ghost use Rattle.layout.specs.Rows.{number_in};
ghost use Rattle.state.specs.View.{kept_cuts, flipped_reason};
ghost use Rattle.state.specs.Change.{raised, decided_at};
ghost use Rattle.propagate.specs.Tracked.{Tracked};
ghost use Rattle.state.specs.Moved.{place_of};
ghost use Rattle.backtrack.specs.Saved.{saved_room, Roomy, SavedAt};
ghost use Rattle.backtrack.specs.Jumps.{Savable, Decidable, Decided, LevelSaved, Flippable, Flipped, next_in};

use layout::MAX_ROWS;
use levels::copy_to;
use propagate::bounds::set;
use propagate::track::Track;
use state::kept::{Kept, dropped};
use state::{DECISION, FLIPPED, Level};
use threshold::next_value;

// The numbers saved for one level.
const ROOM: usize = MAX_ROWS;

// What is saved for each level above: of each constraint that was kept then, what was tracked, `ROOM` places for a level; how many cuts were gone then,
// and how many constraints were kept.
#[derive(Drop)]
pub struct Saved {
    pub olds: [i64; 4224],
    pub limits: [i64; 4224],
    pub gones: [usize; 33],
    pub counts: [usize; 33],
}

// The position that the constraint now at position j had when `by` fewer cuts were gone.
fn place(m: usize, by: usize, j: usize) -> usize
    requires { (j ≤ saved_room) × (by ≤ max_budget) }
    ensures { result ≡ place_of m by j }
{
    if j < m { j } else { j + by }
}

impl Saved {
    // Nothing saved.
    pub fn new() -> Saved
        ensures room { Roomy result.olds result.limits result.gones result.counts }
        ensures gones { result.gones ≡ replicate 33 0 }
        ensures counts { result.counts ≡ replicate 33 0 }
    {
        Saved {
            olds: [0; 4224],
            limits: [0; 4224],
            gones: [0; 33],
            counts: [0; 33],
        }
    }

    // What is tracked at the level at `depth`, which a decision leaves.
    fn save(&mut self, kept: &Kept, depth: usize, track: &Track)
        requires { Savable kept.now.m depth track.now.activities track.now.reaches self.old.olds self.old.limits self.old.gones self.old.counts }
        ensures { (n : ℕ) (rows lower upper : List ℤ) → Tracked n rows lower upper track.now.activities track.now.reaches (kept.now.m + kept_cuts kept.now.made) → LevelSaved n kept.now.m kept.now.made rows lower upper depth self.old.olds self.old.limits self.old.gones self.old.counts self.new.olds self.new.limits self.new.gones self.new.counts }
    {
        let count = kept.count();
        let at = ROOM * depth;
        copy_to(&track.activities, count, at, &mut self.olds);
        copy_to(&track.reaches, count, at, &mut self.limits);
        self.gones[depth] = dropped(kept.made);
        self.counts[depth] = count;
    }

    // What was saved for the level at `depth` of the constraints that are still kept, up to the first that was not: how many those are.
    fn take_back(&self, kept: &Kept, level: &Level, depth: usize, track: &mut Track) -> usize
        requires saved { SavedAt kept.now.n kept.now.m kept.now.made kept.now.rows.now level.now.lower level.now.upper self.now.olds self.now.limits (get_or self.now.gones depth 0) (get_or self.now.counts depth 0) depth }
        requires room { Roomy self.now.olds self.now.limits self.now.gones self.now.counts }
        requires sizes { (kept.now.m ≤ max_constraints) × ((kept.now.made ≤ max_budget) × (depth ≤ max_variables)) }
        requires tracked { Tracked kept.now.n kept.now.rows.now level.now.lower level.now.upper track.old.activities track.old.reaches 0 }
        ensures { (result ≤ kept.now.m + kept_cuts kept.now.made) × Tracked kept.now.n kept.now.rows.now level.now.lower level.now.upper track.new.activities track.new.reaches result }
    {
        let all = kept.count();
        let by = dropped(kept.made) - self.gones[depth];
        let count = self.counts[depth];
        let at = ROOM * depth;
        for j in 0..all {
            let p = place(kept.m, by, j);
            if count <= p {
                return j;
            }
            track.activities[j] = self.olds[at + p];
            track.reaches[j] = self.limits[at + p];
        }
        all
    }
}

// A decision at variable i: its upper bound falls to its lower one. What is tracked of the constraints at the level that it leaves is saved. Returns the
// position of the first constraint that the new level falsifies, or how many are kept.
// Stays: here and in `backjump` the number of kept constraints stands for none: the result is the limit of the scan that comes next, which an Option would have to become first.
pub fn decide(
    kept: &Kept,
    i: usize,
    depth: usize,
    level: &mut Level,
    track: &mut Track,
    saved: &mut Saved,
) -> usize
    requires { Decidable kept.now.n kept.now.m kept.now.made kept.now.rows.now level.old.lower level.old.upper i depth track.old.activities track.old.reaches saved.old.olds saved.old.limits saved.old.gones saved.old.counts }
    ensures decided { Decided kept.now.n kept.now.m kept.now.made kept.now.rows.now level.old.lower level.old.upper level.old.above i depth level.new.upper level.new.above track.new.activities track.new.reaches result }
    ensures level { level.new ≡ decided_at level.old i }
    ensures level_saved { LevelSaved kept.now.n kept.now.m kept.now.made kept.now.rows.now level.old.lower level.old.upper depth saved.old.olds saved.old.limits saved.old.gones saved.old.counts saved.new.olds saved.new.limits saved.new.gones saved.new.counts }
    ensures reaches { track.new.reaches ≡ track.old.reaches }
{
    saved.save(kept, depth, track);
    let v = level.lower[i];
    let fall = set(&mut level.upper, &mut level.above, i, v, DECISION);
    level.decided = i;
    track.shift(kept, i, 0, fall)
}

// The decision at variable i flipped: its lower bound goes on to the next value. Returns by how much it rose.
pub fn flip(i: usize, thresholds: &[i64; 32], level: &mut Level) -> i64
    requires { (i < max_variables) × ((Within widest_bound (number_in level.old.lower i)) × (Within widest_change (next_in thresholds.now level.old.lower i -ℤ number_in level.old.lower i))) }
    ensures { (result ≡ next_in thresholds.now level.old.lower i -ℤ number_in level.old.lower i) × (level.new ≡ raised level.old i (next_in thresholds.now level.old.lower i) flipped_reason) }
{
    let next = next_value(thresholds[i], level.lower[i]);
    set(&mut level.lower, &mut level.below, i, next, FLIPPED)
}

// Back at the level at `depth`, which is in hand again, with its decision at variable i flipped: its lower bound goes on to the next value. What was saved
// of the constraints is taken back, and only those that are new are measured. Returns the position of the first constraint that the level falsifies, or
// how many are kept.
pub fn backjump(
    kept: &Kept,
    i: usize,
    depth: usize,
    thresholds: &[i64; 32],
    saved: &Saved,
    level: &mut Level,
    track: &mut Track,
) -> usize
    requires { (Flippable kept.now.n kept.now.m kept.now.made thresholds.now kept.now.rows.now level.old.lower level.old.upper i depth saved.now.olds saved.now.limits saved.now.gones saved.now.counts) × (Tracked kept.now.n kept.now.rows.now level.old.lower level.old.upper track.old.activities track.old.reaches 0) }
    ensures flipped { Flipped kept.now.n kept.now.m kept.now.made thresholds.now kept.now.rows.now level.old.lower level.old.upper level.old.below i level.new.lower level.new.below track.new.activities track.new.reaches result }
    ensures level { level.new ≡ raised level.old i (next_in thresholds.now level.old.lower i) flipped_reason }
{
    let from = saved.take_back(kept, level, depth, track);
    track.measure(kept, level, from);
    let rise = flip(i, thresholds, level);
    track.shift(kept, i, rise, 0)
}
