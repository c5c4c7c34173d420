// A lent state with another clock, with other counts, or with another word of contenders. A function for each: one for all would take the
// change as a closure, and no call would be shorter.
use rules::Slot;
use state::{Segment, State};

pub fn with_clock(s: State, clock: u32) -> State {
    let segment = Segment {
        clock: Slot(clock),
        ..s.segment
    };
    State { segment, ..s }
}

pub fn with_counts(s: State, admitted: u64, sent: u64, lost: u64) -> State {
    let segment = Segment {
        admitted,
        sent,
        lost,
        ..s.segment
    };
    State { segment, ..s }
}

pub fn with_turned(s: State, turned: u64) -> State {
    let segment = Segment {
        turned,
        ..s.segment
    };
    State { segment, ..s }
}

pub fn with_word(s: State, contenders: u64) -> State {
    let segment = Segment {
        contenders,
        ..s.segment
    };
    State { segment, ..s }
}
