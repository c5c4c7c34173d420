// Beginning a contention: late packets are counted lost, each station offers one packet, and parameters and the first window are fixed.
ghost use Rattle.std.specs.Prelude.{ℕ, ◌+◌, ◌-◌, ◌<◌, ◌≤◌, ◌≡◌, true, false, ◌||◌, cond, eqb, get_or};
ghost use Rattle.rules.specs.SetUp.{discipline_of};
ghost use Rattle.rules.specs.Begin.{sits_out};
ghost use Rattle.state.specs.State.{last_of, waiting_in};
ghost use Rattle.state.specs.State.{Held, standing, meaning, form};
ghost use Rattle.rules.specs.Begin.{begin, drops_of};
ghost use Rattle.bus.specs.Parts.{offering_all, AllInTime, contender_for, opening_of, offers_of, begun_with, contending_of, shown_of};

use crate::{Begun, offering, waiting};
use rules::{Discipline, Packet, Slot};
use sorts::{Address, Capability};
use state::{
    Contender, Contention, Listed, Queues, Round, Segment, Settings, State, standing, zeros,
};

// Whether a station has no packet, or sits out.
pub fn offers_nothing(
    discipline: Discipline,
    round: Round,
    capability: Capability,
    length: usize,
) -> bool
    ensures { result ≡ (eqb length 0 || sits_out discipline (last_of round) capability.0) }
{
    length == 0 || offering::sits_out(discipline, round, capability)
}

// A station's place among the contenders, of the packets that it has in time, where it does not sit out.
fn contender_for(
    settings: Settings,
    clock: Slot,
    round: Round,
    l: Listed,
    queue: &[Packet],
) -> Contender
    requires q_positive { 1 ≤ settings.q }
    requires d_positive { 1 ≤ settings.d }
    requires takes_part { sits_out (discipline_of settings.discipline) (last_of round) l.capability.0 ≡ false }
    ensures { result ≡ contender_for settings clock round l queue.now }
{
    let Some(packet) = waiting::chosen(queue, Discipline::from(settings.discipline)) else {
        return zeros::NO_CONTENDER;
    };
    let parameter = offering::parameter(settings, clock, l.capability, packet);
    Contender {
        contends: true,
        parameter,
        packet,
    }
}

// The segment with each station's offer recorded, once late packets have left. `offer_all` does it in place, but its clause `stands` does not hold
// there: offers are recorded and no contention has begun. Only the queues to choose from are taken out, and in the loop itself: a call that takes one
// out copies the whole row. The listed stations are taken out once: to read one of them in a segment that came by value would copy it whole.
fn offers_of(g: Segment, queues: Queues) -> Segment
    requires n_bound { g.settings.n ≤ 64 }
    requires lengths_bound { (i : ℕ) → i < g.settings.n → get_or queues.lengths i 0 ≤ 16 }
    requires q_positive { 1 ≤ g.settings.q }
    requires d_positive { 1 ≤ g.settings.d }
    ensures { result ≡ offers_of g queues }
{
    let settings = g.settings;
    let discipline = Discipline::from(settings.discipline);
    let listed = g.listed;
    let round = g.round;
    let n = settings.n;
    let parameters = [0u64; 64];
    let none = [0u32; 64];
    let admissions = [zeros::NO_SLOT; 64];
    let mut next = g;
    next.contenders = 0;
    next.parameters = parameters;
    next.numbers = none;
    next.values = none;
    next.lengths = none;
    next.admissions = admissions;
    // By place: a station is a place of seven rows, and a bit.
    for i in 0..n {
        let l = listed[i];
        let length = queues.lengths[i];
        if offers_nothing(discipline, round, l.capability, length) {
            continue;
        }
        let first = 16 * i;
        let queue = &queues.packets[first..first + length];
        let c = contender_for(settings, g.clock, round, l, queue);
        let p = c.packet;
        let admission = p.admission;
        next.contenders = word::set(next.contenders, i);
        next.parameters[i] = c.parameter;
        next.numbers[i] = p.number;
        next.values[i] = p.value;
        next.lengths[i] = p.length;
        next.admissions[i] = admission;
    }
    next
}

// A contention's beginning: 'The window is the first window of D, start 0, side right.'
pub fn opening(d: u32) -> Contention
    ensures { result ≡ opening_of d }
{
    let window = window::first_window(d);
    Contention {
        begun: true,
        window,
        tied: false,
        tie: 0,
    }
}

// How many packets have left the queues of the first n stations, by how many each had and has.
pub fn dropped(before: [usize; 64], after: [usize; 64], n: usize) -> u64
    requires { waiting_in after n ≤ waiting_in before n }
    ensures { result ≡ waiting_in before n - waiting_in after n }
{
    (standing::waiting_in(before, n) - standing::waiting_in(after, n)) as u64
}

// The segment as a contention begins, where so many late packets have left the queues: each station offers one packet.
pub fn begun(g: Segment, queues: Queues, drops: u64) -> Segment
    requires n_bound { g.settings.n ≤ 64 }
    requires lengths_bound { (i : ℕ) → i < g.settings.n → get_or queues.lengths i 0 ≤ 16 }
    requires q_positive { 1 ≤ g.settings.q }
    requires d_positive { 1 ≤ g.settings.d }
    requires drops_bound { g.lost + drops ≤ 18446744073709551615 }
    ensures { result ≡ begun_with g queues drops }
{
    let settings = g.settings;
    let contention = opening(settings.d);
    let mut next = offers_of(g, queues);
    next.lost = g.lost + drops;
    next.contention = contention;
    next
}

// Each station's offer, recorded where none is: the search carries the place of the best packet so far. Whether one of them is late. Where none
// is, no packet of a queue is, because those offered in RTDG have the smallest latest starts.
fn offer_all(s: &mut State) -> bool
    requires held { Held s.old }
    requires stands { standing s.old ≡ true }
    requires between { s.old.segment.contention.begun ≡ false }
    ensures offers { s.new ≡ offering_all s.old }
    ensures in_time { result ≡ false → AllInTime s.old }
{
    let settings = s.segment.settings;
    let discipline = Discipline::from(settings.discipline);
    let clock = s.segment.clock;
    let round = s.segment.round;
    let n = settings.n;
    let mut late = false;
    // By place: a station is a place of seven rows, and a bit.
    for i in 0..n {
        let l = s.segment.listed[i];
        let length = s.queues.lengths[i];
        if offers_nothing(discipline, round, l.capability, length) {
            continue;
        }
        let first = 16 * i;
        let looked = offering::looked_at(discipline, length);
        let mut place = first;
        let mut least = offering::rank(s.queues.packets[first]);
        // By place, which is what is carried.
        for j in 1..looked {
            let at = first + j;
            let rank = offering::rank(s.queues.packets[at]);
            if rank < least {
                least = rank;
                place = at;
            }
        }
        let packet = s.queues.packets[place];
        late = offering::late_offered(late, settings.discipline, clock, packet.value);
        s.segment.contenders = word::set(s.segment.contenders, i);
        s.segment.parameters[i] = offering::parameter(settings, clock, l.capability, packet);
        s.segment.numbers[i] = packet.number;
        s.segment.values[i] = packet.value;
        s.segment.lengths[i] = packet.length;
        s.segment.admissions[i] = packet.admission;
    }
    late
}

// A contention begins: late packets leave, each station offers one packet, and parameters and the first window are fixed. How many were dropped.
pub fn begin_in(s: &mut State) -> u64
    requires held { Held s.old }
    requires stands { standing s.old ≡ true }
    requires between { s.old.segment.contention.begun ≡ false }
    ensures begun { s.new ≡ form (begin (meaning s.old)) }
    ensures drops { result ≡ drops_of (meaning s.old) }
    ensures listed { s.new.segment.listed ≡ s.old.segment.listed }
{
    let settings = s.segment.settings;
    if !offer_all(s) {
        s.segment.contention = opening(settings.d);
        return 0;
    }
    // One is late: all that are leave, and the offers are made anew.
    let lengths = s.queues.lengths;
    waiting::drop_late(
        &mut s.queues,
        settings.n,
        settings.discipline,
        s.segment.clock,
    );
    let drops = dropped(lengths, s.queues.lengths, settings.n);
    s.segment = begun(s.segment, s.queues, drops);
    drops
}

// The addresses of those in a word, by station.
fn contending(contenders: u64, listed: &[Listed; 64]) -> [Address; 64]
    ensures { result ≡ contending_of contenders listed.now }
{
    let mut addresses = [Address(0); 64];
    for (i, l) in listed.iter().enumerate() {
        if word::test(contenders, i) {
            addresses[i] = l.address;
        }
    }
    addresses
}

// What a begin shows of the segment in which a contention has begun.
pub fn shown(g: &Segment, drops: u64) -> Begun
    ensures { result ≡ shown_of g.now drops }
{
    let w = g.contention.window;
    Begun {
        refusal: 0,
        drops,
        slot: g.clock,
        start: w.start,
        size: w.size,
        contenders: g.contenders,
        addresses: contending(g.contenders, &g.listed),
        numbers: g.numbers,
        parameters: g.parameters,
    }
}
