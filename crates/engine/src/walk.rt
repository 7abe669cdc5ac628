// The walk that a call takes, and its steps. It is large, so it is filled where it lies; the state that it walks from is lent.
ghost use Rattle.std.specs.Prelude.{◌≡◌, ◌+◌, ◌≤◌, ◌<◌, ◌^◌, [], false};
ghost use Rattle.model_problems.specs.Ranges.{max_variables};
ghost use Rattle.state.specs.View.{view};
ghost use Rattle.turns.specs.Advancing.{Starts};
ghost use Rattle.engine.specs.Given.{Taken};
ghost use Rattle.engine.specs.Walk.{Fresh, Scannable, Scanned, Begins, Underway, Propagates, Halted, Decides, Leaves, GoneBack, Strikable, StrikesOut, CountableAt, Learns, Affordable, Counts, Endable, state_of};

use crate::given::Given;
use backtrack::{Saved, backjump, decide};
use bits::masks::Masks;
use conflict::{Branch, conflict};
use levels::struck::put_values;
use propagate::propagate::{Found, propagate};
use propagate::track::Track;
use state::kept::Store;
use state::{Level, Search, Status};
use turns::apart::put_rows;
use turns::masks::marks;

// Where the turn began: the level, its depth, and the bounds set in earlier turns.
#[derive(Drop)]
pub(crate) struct Turn {
    pub before: Level,
    pub start: usize,
    pub earlier: usize,
}

// The level in hand, at the state's depth, which is stored when the search leaves it; the least depth that this call left by a decision; the turns that
// were left after the last strike, how many of them are done, and the strikes; the kept constraints, with the divisor constraints blank; what is tracked
// of them and of the levels above, and what they mention. `told` is the position of the first that the level falsifies, or how many are kept.
#[derive(Drop)]
pub(crate) struct Walk {
    pub level: Level,
    pub low: usize,
    pub turn: Turn,
    pub left: usize,
    pub done: usize,
    pub struck: usize,
    pub store: Store,
    pub track: Track,
    // Stays: the number of kept constraints stands for none: the result is the limit of the scan that comes next, which an Option would have to become first.
    pub told: usize,
    pub saved: Saved,
    pub masks: Masks,
}

impl Walk {
    // At a state's level, with nothing carried yet.
    pub(crate) fn new(s: &Search, limit: usize) -> Walk
        requires { s.now.depth ≤ max_variables }
        ensures { Fresh s.now limit result }
    {
        let level = state::whole(s.levels[s.depth]);
        Walk {
            level,
            low: s.depth,
            turn: Turn {
                before: level,
                start: s.depth,
                earlier: s.propagations,
            },
            left: limit,
            done: 0,
            struck: 0,
            store: Store {
                rows: [0; 4224],
                numbers: [0; 64],
                made: 0,
            },
            track: Track {
                activities: [0; 128],
                reaches: [0; 128],
            },
            told: 0,
            saved: Saved::new(),
            masks: Masks {
                inputs: [0; 64],
                cuts: [0; 64],
            },
        }
    }

    // The kept constraints are taken over, those with a divisor blanked, and what is carried is filled in.
    pub(crate) fn begin(&mut self, given: &Given, s: &Search)
        requires taken { Taken s.now given.now }
        requires startable { Starts s.now 0 false 0 [] [] }
        requires fresh { Fresh s.now self.old.left self.old }
        ensures { Begins given.now s.now self.old self.new }
    {
        self.store.rows = s.rows;
        self.store.numbers = s.numbers;
        self.store.made = s.made;
        put_rows(
            &[0; 4224],
            &given.divided.divisors,
            given.n,
            given.m,
            &mut self.store.rows,
        );
        self.scan(given);
    }

    // What is tracked of the constraints at the level in hand, and the variables that they mention.
    fn scan(&mut self, given: &Given)
        requires { Scannable given.now self.old }
        ensures { Scanned given.now self.old self.new }
    {
        let kept = self.store.kept(given.n, given.m);
        let count = kept.count();
        self.track.measure(&kept, &self.level, 0);
        let first = self.track.first_falsified(count);
        self.told = given.first_divided(given.divided.all, &self.level, first);
        self.masks.inputs = marks(kept.rows, given.n, 0, given.m);
        self.masks.cuts = marks(kept.rows, given.n, given.m, count - given.m);
    }

    // Propagation at the level in hand. Returns where it stops.
    pub(crate) fn propagate(&mut self, given: &Given, s: &mut Search) -> Found
        requires { Underway given.now s.old self.old }
        ensures { Propagates given.now s.old self.old s.new self.new result }
    {
        let kept = self.store.kept(given.n, given.m);
        let stopped = propagate(
            &kept,
            &given.divided,
            &self.masks,
            &given.thresholds,
            self.told,
            s.propagations,
            &mut self.level,
            &mut self.track,
        );
        s.propagations = stopped.count;
        stopped.found
    }

    // A decision at variable i: the level in hand is stored, and the next one begins as it is.
    pub(crate) fn decide(&mut self, given: &Given, s: &mut Search, i: usize)
        requires { Halted given.now s.old self.old (Found.Decide i) }
        ensures { Decides given.now s.old self.old i s.new self.new }
    {
        s.levels[s.depth] = self.level;
        let kept = self.store.kept(given.n, given.m);
        let first = decide(
            &kept,
            i,
            s.depth,
            &mut self.level,
            &mut self.track,
            &mut self.saved,
        );
        self.told = given.first_divided(given.divided.columns[i], &self.level, first);
        s.depth += 1;
    }

    // The solution in hand is put among the others, and the search goes back as if it were none.
    pub(crate) fn strike_out(&mut self, given: &Given, s: &mut Search, solutions: &mut [i64])
        requires { Strikable given.now s.old self.old solutions.old }
        ensures { StrikesOut given.now s.old self.old solutions.old s.new self.new solutions.new }
    {
        put_values(&self.level.lower, given.n, self.struck, solutions);
        self.struck += 1;
        self.left -= self.done;
        self.done = 0;
        s.levels[s.depth] = self.level;
        self.go_back(given, s, s.depth);
    }

    // The conflict in the constraint at position j is counted, and the search goes back. Returns whether there was a level to go back to.
    pub(crate) fn count_conflict(
        &mut self,
        given: &Given,
        s: &mut Search,
        j: usize,
        keep: bool,
        buffer: &mut [u8],
    ) -> bool
        requires { Affordable given.now s.old self.old j keep buffer.old }
        ensures { Counts given.now s.old self.old j keep buffer.old s.new self.new buffer.new result }
    {
        let back = self.learn(given, s, j, keep, buffer);
        if back == 0 {
            s.status = Status::Infeasible;
            self.start_turn(s);
            return false;
        }
        self.go_back(given, s, back);
        true
    }

    // The level in hand is stored, what the conflict teaches is kept, and its record written. Returns the backjump level.
    fn learn(
        &mut self,
        given: &Given,
        s: &mut Search,
        j: usize,
        keep: bool,
        buffer: &mut [u8],
    ) -> usize
        requires countable { CountableAt given.now s.old self.old j keep buffer.old }
        requires conflicts { s.old.conflicts + 1 < 2 ^ 64 }
        requires done { self.old.done + 1 < 2 ^ 64 }
        ensures { Learns given.now s.old self.old s.new self.new j keep buffer.old result buffer.new }
    {
        s.levels[s.depth] = self.level;
        let count = s.conflicts + 1;
        s.conflicts = count;
        let branch = Branch {
            n: given.n,
            m: given.m,
            divided: &given.divided,
            levels: &s.levels,
            depth: s.depth,
        };
        let back = conflict(
            &branch,
            j,
            count,
            keep,
            self.done,
            &mut self.store,
            &mut self.masks,
            buffer,
        );
        self.done += 1;
        back
    }

    // Back at the level above the one at depth `back`, with the decision that led from it flipped. The next turn starts there. The levels are all stored.
    fn go_back(&mut self, given: &Given, s: &mut Search, back: usize)
        requires { Leaves given.now s.old self.old back }
        ensures { GoneBack given.now s.old self.old back s.new self.new }
    {
        let i = state::whole(s.levels[back]).decided;
        s.depth = back - 1;
        self.level = state::whole(s.levels[s.depth]);
        let kept = self.store.kept(given.n, given.m);
        let first = backjump(
            &kept,
            i,
            s.depth,
            &given.thresholds,
            &self.saved,
            &mut self.level,
            &mut self.track,
        );
        let due = given.due(i, s.depth, self.low);
        self.told = given.first_divided(due, &self.level, first);
        self.low = self.low.min(s.depth);
        self.start_turn(s);
    }

    // The turn starts here.
    pub(crate) fn start_turn(&mut self, s: &Search)
        ensures { self.new ≡ record self.old { turn = record { before = self.old.level; start = s.now.depth; earlier = s.now.propagations } } }
    {
        self.turn = Turn {
            before: self.level,
            start: s.depth,
            earlier: s.propagations,
        };
    }

    // The state is what it was where the turn began, with the constraints that are kept now and the rows of the divisor constraints.
    pub(crate) fn end(&self, given: &Given, s: &mut Search)
        requires { Endable given.now s.old self.now }
        ensures { view s.new ≡ state_of given.now s.old self.now }
    {
        s.levels[self.turn.start] = self.turn.before;
        s.rows = self.store.rows;
        s.numbers = self.store.numbers;
        s.made = self.store.made;
        put_rows(
            &given.divided.lines,
            &given.divided.divisors,
            given.n,
            given.m,
            &mut s.rows,
        );
        s.depth = self.turn.start;
        s.propagations = self.turn.earlier;
    }
}
