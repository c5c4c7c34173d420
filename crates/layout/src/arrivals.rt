// The arrivals that have been said so far, in order of time, and what is added to them.
ghost use Rattle.std.specs.Prelude.{◌<◌, ◌≤◌, ◌+◌, ◌-◌, ◌*◌, ◌≡◌, leb, length, take};
ghost use Rattle.std.specs.List.{take_while};
ghost use Rattle.rules.specs.Bus.{code};
ghost use Rattle.rules.specs.Standing.{value_is_fit};
ghost use Rattle.layout.specs.Layout.{inserted, later, value_at, arrival_of};

use rules::{Discipline, Slot};
use sorts::Address;
use state::Arrival;

// How many arrivals come before one at this time: those at the start whose time is not above it.
fn before(arrivals: &[Arrival], time: Slot) -> usize
    ensures value { result ≡ length (take_while (λ x. leb x.time.0 time.0) arrivals.now) }
    ensures upper_bound { result ≤ length arrivals.now }
{
    arrivals.iter().take_while(|x| x.time <= time).count()
}

// Puts an arrival among others, in places of which the last is free: it comes after those whose time is not above its own, and all from there
// on move one place on.
pub fn insert(places: &mut [Arrival], arrival: Arrival)
    requires { 0 < length places.old }
    ensures { places.new ≡ inserted arrival (take (length places.old - 1) places.old) }
{
    let last = places.len() - 1;
    let at = before(&places[..last], arrival.time);
    places[at..].rotate_right(1);
    places[at] = arrival;
}

// Arrivals every so many slots from a slot to a slot. The value of a datagram is given as slots after its time.
#[derive(Clone, Copy)]
pub struct Repeated {
    pub every: u32,
    pub from: u32,
    pub to: u32,
    pub address: u32,
    pub value: u32,
    pub length: u32,
}

impl Repeated {
    // How many there are after the first.
    pub fn later(&self) -> u32
        requires every_nonzero { 0 < self.now.every }
        requires from_le_to { self.now.from ≤ self.now.to }
        ensures { result ≡ later self.now.every self.now.from self.now.to }
    {
        (self.to - self.from) / self.every
    }

    // The slot of the last of them.
    pub fn last_time(&self) -> u32
        requires every_nonzero { 0 < self.now.every }
        requires from_le_to { self.now.from ≤ self.now.to }
        ensures { result ≡ self.now.from + later self.now.every self.now.from self.now.to * self.now.every }
    {
        self.from + self.later() * self.every
    }

    // The value of the one at a time; of a datagram, so many slots after it.
    pub fn value_at(&self, discipline: Discipline, time: u32) -> u64
        ensures { result ≡ value_at (code discipline) self.now.value time }
    {
        match discipline {
            Discipline::RTDG => u64::from(time) + u64::from(self.value),
            Discipline::PRI | Discipline::RTVC => u64::from(self.value),
        }
    }

    // The one at a time.
    pub fn arrival_at(&self, discipline: Discipline, time: u32) -> Arrival
        requires { value_at (code discipline) self.now.value time < 4_294_967_296 }
        ensures { result ≡ arrival_of time self.now.address (value_at (code discipline) self.now.value time) self.now.length }
    {
        Arrival {
            time: Slot(time),
            address: Address(self.address),
            value: self.value_at(discipline, time) as u32,
            length: self.length,
        }
    }
}
