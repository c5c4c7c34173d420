// 'What has no meaning is zero': places that nothing fills, no contention, no last winner.
use crate::{Arrival, Contender, Contention, Listed, Round};
use rules::{Packet, Slot};
use sorts::{Address, Capability};
use window::{Side, Window};

// A place that no station fills.
pub const NOBODY: Listed = Listed {
    address: Address(0),
    capability: Capability(0),
};

// No admission slot.
pub const NO_SLOT: Slot = Slot(0);

// A place that no packet fills.
pub const NO_PACKET: Packet = Packet {
    number: 0,
    value: 0,
    length: 0,
    admission: NO_SLOT,
};

// The place of a station that does not contend.
pub const NO_CONTENDER: Contender = Contender {
    contends: false,
    parameter: 0,
    packet: NO_PACKET,
};

// No contention is under way: no window, no tie value.
pub const NO_CONTENTION: Contention = Contention {
    begun: false,
    window: Window {
        start: 0,
        size: 0,
        side: Side::Left,
    },
    tied: false,
    tie: 0,
};

// 'no last winner'
pub const NO_ROUND: Round = Round {
    won: false,
    last: Capability(0),
};

// A place that no arrival fills.
pub const NO_ARRIVAL: Arrival = Arrival {
    time: NO_SLOT,
    address: Address(0),
    value: 0,
    length: 0,
};
