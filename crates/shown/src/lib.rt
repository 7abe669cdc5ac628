// What the calls show a caller, beside the answers of turns. How each is read as the documents' answer stands in specs/.
#![tactic(auto)]

use answers::Ran;
use state::Search;

// What a turn gives: what a run does, and the journal block if a conflict was counted.
#[derive(Clone, Copy)]
pub struct Stepped {
    pub run: Ran,
    pub block: Option<[u8; 512]>,
}

// What striking out a solution answers: 'struck'; 'ended' for one that no decision led to; or 'no form' for a state that is not marked as solved.
#[derive(Clone, Copy, Debug, PartialEq, Eq)]
pub enum Exclusion {
    Struck,
    Ended,
    Unsolved,
}

// What striking out gives. Unless a solution was struck out, the state is the given one, whole.
#[derive(Clone, Copy)]
pub struct Excluded {
    pub answer: Exclusion,
    pub state: Search,
}
