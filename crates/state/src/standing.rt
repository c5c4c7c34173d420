// The standing conditions: what refusal 1 goes by.
ghost use Rattle.std.specs.Prelude.{◌+◌, ◌<◌, ◌≤◌, ◌≡◌, eqb, length};
ghost use Rattle.rules.specs.Lists.{each_of, some_of};
ghost use Rattle.rules.specs.SetUp.{discipline_of};
ghost use Rattle.rules.specs.Standing.{packet_fits, rising, same_packet};
ghost use Rattle.state.specs.State.{has_no_packet, recorded_at, standing, waiting_in};
ghost use Rattle.state.specs.Parts.{has_no_contender, offer_sound, contender_sound, station_test, nobody_test, place_test, parameter_fits, queues_sound, round_sound, contention_sound, in_range, parts_sound};

use crate::{
    Contender, Contention, Listed, Queues, Round, Segment, Settings, State, numbers, stations,
    zeros,
};
use rules::{Discipline, Packet, Slot};
use sorts::{Capability, Windowed, counts, disciplines};

// 'packets admitted: at most 4,294,967,295'
pub const MOST_ADMITTED: u64 = 4_294_967_295;

// Whether a place is one that no packet fills.
fn no_packet(p: &Packet) -> bool
    ensures { result ≡ has_no_packet p.now }
{
    *p == zeros::NO_PACKET
}

// Whether a place is that of a station that does not contend.
fn no_contender(c: &Contender) -> bool
    ensures { result ≡ has_no_contender c.now }
{
    *c == zeros::NO_CONTENDER
}

// 'What has no meaning is zero: places past a queue's end'
fn zero_past_end(rest: &[Packet]) -> bool
    ensures { result ≡ each_of has_no_packet rest.now }
{
    rest.iter().all(no_packet)
}

// 'numbers from 1 to the admitted count and rising'
fn rises(packets: &[Packet], admitted: u64) -> bool
    ensures { result ≡ rising 0 admitted packets.now }
{
    let mut before = 0;
    for p in packets {
        if p.number <= before {
            return false;
        }
        before = p.number;
    }
    u64::from(before) <= admitted
}

// Whether a packet's value and length are in range, and its admission slot is not above the clock.
fn packet_fits(g: &Segment, p: &Packet) -> bool
    ensures { result ≡ packet_fits (discipline_of g.now.settings.discipline) g.now.settings.d g.now.clock.0 p.now }
{
    let Settings { discipline, d, .. } = g.settings;
    disciplines::value_fits(discipline, d, p.value)
        && disciplines::length_fits(p.length)
        && p.admission <= g.clock
}

// Whether a packet is one of a queue's.
fn holds(packets: &[Packet], packet: &Packet) -> bool
    ensures { result ≡ some_of (same_packet packet.now) packets.now }
{
    packets.contains(packet)
}

// 'in PRI and RTVC equal to priority or capability'
fn parameter_fits(discipline: Discipline, capability: Capability, c: &Contender) -> bool
    ensures { result ≡ parameter_fits discipline capability c.now }
{
    match discipline {
        Discipline::PRI => c.parameter == u64::from(c.packet.value),
        Discipline::RTDG => true,
        Discipline::RTVC => c.parameter == capability.number(),
    }
}

// 'each contender's packet in its own station's queue, its parameter below D and in PRI and RTVC equal to priority or capability'; none
// contends between contentions.
fn offer_stands(g: &Segment, capability: Capability, c: &Contender, packets: &[Packet]) -> bool
    ensures { result ≡ offer_sound g.now capability c.now packets.now }
{
    g.contention.begun
        && holds(packets, &c.packet)
        && c.parameter < u64::from(g.settings.d)
        && parameter_fits(Discipline::from(g.settings.discipline), capability, c)
}

// The place of a station among the contenders: zero where it does not contend.
fn contender_stands(g: &Segment, capability: Capability, c: &Contender, packets: &[Packet]) -> bool
    ensures { result ≡ contender_sound g.now capability c.now packets.now }
{
    if c.contends {
        offer_stands(g, capability, c, packets)
    } else {
        no_contender(c)
    }
}

// 'values and lengths in range'; 'admission slot not above the clock'
fn packets_fit(g: &Segment, packets: &[Packet]) -> bool
    ensures { result ≡ each_of (packet_fits (discipline_of g.now.settings.discipline) g.now.settings.d g.now.clock.0) packets.now }
{
    packets.iter().all(|p| packet_fits(g, p))
}

// 'in each queue .. numbers .., values and lengths in range', admission slots, and the station's place among the contenders
fn station_stands(g: &Segment, l: &Listed, c: &Contender, packets: &[Packet]) -> bool
    ensures { result ≡ station_test g.now l.now c.now packets.now }
{
    rises(packets, g.admitted)
        && packets_fit(g, packets)
        && contender_stands(g, l.capability, c, packets)
}

// 'What has no meaning is zero: stations past N'
fn nobody_at(l: &Listed, c: &Contender, packets: &[Packet]) -> bool
    ensures { result ≡ nobody_test l.now c.now (length packets.now) }
{
    *l == zeros::NOBODY && packets.is_empty() && no_contender(c)
}

// What the rows have at place i, as one value: see `place_in`.
fn contender_at(g: &Segment, i: usize) -> Contender
    requires { i < 64 }
    ensures { result ≡ recorded_at g.now i }
{
    Contender {
        contends: word::test(g.contenders, i),
        parameter: g.parameters[i],
        packet: Packet {
            number: g.numbers[i],
            value: g.values[i],
            length: g.lengths[i],
            admission: g.admissions[i],
        },
    }
}

// 'at most 16 packets': the place of station i, which has this many of these places; a station's up to N, nobody's past it.
fn place_stands(g: &Segment, i: usize, waits: usize, places: &[Packet]) -> bool
    requires place { i < 64 }
    requires sixteen { length places.now ≡ 16 }
    ensures { result ≡ place_test g.now i waits places.now }
{
    let Some((packets, rest)) = places.split_at_checked(waits) else {
        return false;
    };
    let l = &g.listed[i];
    let c = contender_at(g, i);
    zero_past_end(rest)
        && if i < g.settings.n {
            station_stands(g, l, &c, packets)
        } else {
            nobody_at(l, &c, packets)
        }
}

// 'waiting is the number of packets in the queues', of the first n of them. A length above 16 counts as 16, and n above 64 as 64. By a `for`: of the
// library's `sum` over the part the check lacks the bound. The array and the count come as the function is exported.
pub fn waiting_in(lengths: [usize; 64], n: usize) -> usize
    ensures { result ≡ waiting_in lengths n }
{
    let mut sum = 0;
    for length in &lengths[..n.min(64)] {
        sum += (*length).min(16);
    }
    sum
}

// 'admitted = sent + lost + waiting'
fn counts_stand(g: &Segment, waiting: usize) -> bool
    ensures { result ≡ eqb g.now.admitted (g.now.sent + g.now.lost + waiting) }
{
    u128::from(g.admitted) == u128::from(g.sent) + u128::from(g.lost) + waiting as u128
}

// 'a last winner only in RTVC and some station's capability'; without one the field is zero
fn round_stands(discipline: Discipline, round: &Round, stations: &[Listed]) -> bool
    ensures { result ≡ round_sound discipline round.now stations.now }
{
    let Round { won, last } = *round;
    match discipline {
        Discipline::RTVC if won => stations::has_capability(stations, last),
        _ => *round == zeros::NO_ROUND,
    }
}

// 'during a contention a window ..., tie value below D'; 'the tie value outside the tie phase, the window .. between contentions' are zero
fn contention_stands(settings: &Settings, c: &Contention) -> bool
    ensures { result ≡ contention_sound settings.now c.now }
{
    if !c.begun {
        return *c == zeros::NO_CONTENTION;
    }
    if c.tied {
        c.tie < u64::from(settings.d) && window::is_placed(c.window, settings.a)
    } else {
        c.tie == 0 && window::is_placed(c.window, settings.d)
    }
}

// Each of the 64 places, 'admitted = sent + lost + waiting', and 'none twice over all queues': the numbers of the packets of all queues are
// taken out, one queue's behind another's; how many there are so far is also the count that is compared.
fn queues_stand(g: &Segment, queues: &Queues) -> bool
    requires { g.now.settings.n ≤ 64 }
    ensures { result ≡ queues_sound g.now queues.now }
{
    let mut numbers = [0u32; 1024];
    let mut waiting = 0;
    for (i, length) in queues.lengths.iter().enumerate() {
        let places = &queues.packets[16 * i..16 * i + 16];
        if !place_stands(g, i, *length, places) {
            return false;
        }
        for p in &places[..*length] {
            numbers[waiting] = p.number;
            waiting += 1;
        }
    }
    counts_stand(g, waiting) && numbers::none_twice(&numbers[..waiting])
}

// 'clock and admitted count within range', and P4's count too.
fn in_range(g: &Segment) -> bool
    ensures { result ≡ in_range g.now }
{
    g.clock <= Slot(disciplines::CLOCK_END)
        && g.admitted <= MOST_ADMITTED
        && g.turned <= counts::MOST_TURNED
}

// The ranges, the round, the contention and the queues of a segment that has no more than 64 stations.
fn parts_stand(g: &Segment, queues: &Queues) -> bool
    requires { g.now.settings.n ≤ 64 }
    ensures { result ≡ parts_sound g.now queues.now }
{
    let Settings { discipline, n, .. } = g.settings;
    in_range(g)
        && round_stands(Discipline::from(discipline), &g.round, &g.listed[..n])
        && contention_stands(&g.settings, &g.contention)
        && queues_stand(g, queues)
}

// The test that refusal 1 goes by: the set-up, the ranges, the round, the contention, the queues.
pub fn stands(s: State) -> bool
    ensures { result ≡ standing s }
{
    let State { segment, queues } = &s;
    stations::verdict(&segment.settings, &segment.listed).is_ok() && parts_stand(segment, queues)
}
