// The session's record; its specs say what open, feed, close and read answer and leave, what a ledger holds, and what holds of sessions
// after every list of calls. The functions are in `session`.
#![tactic(auto)]

use plan::Plan;

// A plan, how far its table is taken, and whether the session is closed: document 01's record.
#[derive(Clone, Copy, Debug, PartialEq, Eq)]
pub struct Session {
    pub plan: Plan,
    pub taken: usize,
    pub closed: bool,
}
