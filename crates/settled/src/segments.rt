// The segments that the examples start from.
use bus::Arrivals;
use rules::Slot;
use sorts::disciplines::{PRI, RTDG, RTVC};
use sorts::{Address, Capability};
use state::{Arrival, Listed, Row, Settings, State, zeros};

pub fn settings(discipline: u32, d: u32, a: u32, q: u32, n: usize) -> Settings {
    Settings {
        discipline,
        d,
        a,
        q,
        n,
    }
}

pub fn listed(address: u32, capability: u32) -> Listed {
    Listed {
        address: Address(address),
        capability: Capability(capability),
    }
}

// A row of three stations.
pub fn row(listed: [Listed; 3]) -> Row {
    let mut stations = [zeros::NOBODY; 64];
    stations[..3].copy_from_slice(&listed);
    Row {
        stations,
        length: 3,
    }
}

// The state that an accepted set-up gives.
fn segment(settings: Settings, row: Row) -> State {
    state::set_up(settings, row).state
}

// The row of the worked example.
pub fn row_1_5_6() -> Row {
    row([listed(1, 0), listed(5, 0), listed(6, 0)])
}

// The worked example's segment: PRI, D 4, A 8, stations 1, 5, 6.
pub fn pri() -> State {
    segment(settings(PRI, 4, 8, 1, 3), row_1_5_6())
}

// RTDG, D 8, A 8, q 10, the same stations.
pub fn rtdg() -> State {
    segment(settings(RTDG, 8, 8, 10, 3), row_1_5_6())
}

// RTVC, D 4, capabilities 0, 1, 3.
pub fn rtvc() -> State {
    segment(
        settings(RTVC, 4, 8, 1, 3),
        row([listed(1, 0), listed(5, 1), listed(6, 3)]),
    )
}

// PRI, D 2, A 1,024: addresses that differ in the upper byte only.
pub fn upper_bytes() -> State {
    segment(
        settings(PRI, 2, 1_024, 1, 2),
        row([listed(7, 0), listed(263, 0), listed(0, 0)]),
    )
}

// The state after an admission.
pub fn admit(s: State, address: u32, value: u32, length: u32) -> State {
    bus::admit(s, Address(address), value, length).state
}

// The state after a step.
pub fn step(s: State) -> State {
    bus::step(s).state
}

// The state after a begin, and after a probe.
pub fn begin(s: State) -> State {
    bus::begin(s).state
}

pub fn probe(s: State) -> State {
    bus::probe(s).state
}

// A row with so many arrivals that are due at once: a packet of length 1 and value 0 at address 1.
pub fn coming(length: usize) -> Arrivals {
    let a = Arrival {
        time: Slot(0),
        address: Address(1),
        value: 0,
        length: 1,
    };
    Arrivals {
        row: [a; 64],
        length,
    }
}

// The state after a stretch of so many such arrivals and a step.
pub fn stretch(s: State, length: usize) -> State {
    bus::play(s, coming(length), 1).state
}

// Packets 1 and 2 at stations 5 and 6, priority 2, lengths 3 and 1.
pub fn two_waiting() -> State {
    admit(admit(pri(), 5, 2, 3), 6, 2, 1)
}

// So many more packets of one slot for station 5.
pub fn more(s: State, count: usize) -> State {
    let mut t = s;
    for _ in 0..count {
        t = admit(t, 5, 2, 1);
    }
    t
}
