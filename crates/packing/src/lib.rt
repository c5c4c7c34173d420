// The records of a scenario as bytes in room that is lent, from an offset on: 'a two-byte length (of what follows it), a two-byte kind, a body,
// all little-endian'. Each function hands out the offset past what it stored; what does not fit is not stored at all, and the offset comes back
// as it was. A number above what its field holds is cut to its low bytes. Every function takes any input.
// The room and the offset come apart, as `whole_stored` of proofs/Promises puts the parts of a scenario together, and the stations and arrivals
// in the arrays that their owner has, since nothing here allocates.
#![tactic(auto)]

ghost use Rattle.std.specs.Prelude.{◌≤◌, ◌≡◌, ◌++◌, length, map, take};
ghost use Rattle.text.specs.Room.{stored, past};
ghost use Rattle.state.specs.SetUp.{asked_of};
ghost use Rattle.scenario.specs.Format.{set_up_kind, station_kind, arrival_kind, run_kind};
ghost use Rattle.scenario.specs.Writing.{record_bytes, arrival_values, run_values, stations_bytes, ending_bytes};
ghost use Rattle.packing.specs.Packing.{settings_values, listed_values};

use scenario::ARRIVAL_BYTES;
use state::{Arrival, Listed, Settings};

const ROOM_BYTES: usize = 65_536;

// What a record of each kind begins with: the length of what follows it, and the kind.
const SET_UP: [u8; 4] = [14, 0, 1, 0];

const STATION: [u8; 4] = [6, 0, 2, 0];

const ARRIVAL: [u8; 4] = [14, 0, 3, 0];

const RUN: [u8; 4] = [4, 0, 4, 0];

// The bytes that a record takes: the two of its length, and what follows them.
const STATION_BYTES: usize = 8;

const RUN_BYTES: usize = 6;

// A record: what it begins with, and its body. It is stored whole or not at all, where a writer would store what fits of it.
fn record(room: &mut [u8; 65536], at: usize, beginning: [u8; 4], body: &[u8]) -> usize
    requires { length body.now ≤ 12 }
    ensures value { result ≡ past at (beginning ++ body.now) }
    ensures room_after { room.new ≡ stored room.old at (beginning ++ body.now) }
{
    if at > ROOM_BYTES - (beginning.len() + body.len()) {
        return at;
    }
    let next = text::letters(room, at, &beginning);
    text::letters(room, next, body)
}

// 'discipline 1, D 4, A 4, q 2, N 1'
pub fn set_up(room: &mut [u8; 65536], at: usize, settings: Settings) -> usize
    ensures value { result ≡ past at (record_bytes set_up_kind (settings_values settings)) }
    ensures room_after { room.new ≡ stored room.old at (record_bytes set_up_kind (settings_values settings)) }
{
    let [discipline, ..] = settings.discipline.to_le_bytes();
    let [d0, d1, d2, d3] = settings.d.to_le_bytes();
    let [a0, a1, a2, a3] = settings.a.to_le_bytes();
    let [q0, q1, ..] = settings.q.to_le_bytes();
    let [n, ..] = settings.n.to_le_bytes();
    let body = [discipline, d0, d1, d2, d3, a0, a1, a2, a3, q0, q1, n];
    record(room, at, SET_UP, &body)
}

// 'address 2, capability 2'
pub fn station(room: &mut [u8; 65536], at: usize, listed: Listed) -> usize
    ensures value { result ≡ past at (record_bytes station_kind (listed_values listed)) }
    ensures room_after { room.new ≡ stored room.old at (record_bytes station_kind (listed_values listed)) }
{
    let [address0, address1, ..] = listed.address.0.to_le_bytes();
    let [capability0, capability1, ..] = listed.capability.0.to_le_bytes();
    let body = [address0, address1, capability0, capability1];
    record(room, at, STATION, &body)
}

// 'time 4, address 2, value 4, packet length 2'
pub fn arrival(room: &mut [u8; 65536], at: usize, arrival: Arrival) -> usize
    ensures value { result ≡ past at (record_bytes arrival_kind (arrival_values arrival)) }
    ensures room_after { room.new ≡ stored room.old at (record_bytes arrival_kind (arrival_values arrival)) }
{
    let [t0, t1, t2, t3] = arrival.time.0.to_le_bytes();
    let [address0, address1, ..] = arrival.address.0.to_le_bytes();
    let [v0, v1, v2, v3] = arrival.value.to_le_bytes();
    let [length0, length1, ..] = arrival.length.to_le_bytes();
    let body = [
        t0, t1, t2, t3, address0, address1, v0, v1, v2, v3, length0, length1,
    ];
    record(room, at, ARRIVAL, &body)
}

// 'steps 2'
pub fn run(room: &mut [u8; 65536], at: usize, steps: u32) -> usize
    ensures value { result ≡ past at (record_bytes run_kind (run_values steps)) }
    ensures room_after { room.new ≡ stored room.old at (record_bytes run_kind (run_values steps)) }
{
    let [low, high, ..] = steps.to_le_bytes();
    record(room, at, RUN, &[low, high])
}

// The records of the first n stations, in order; n above 64 means 64.
pub fn stations(room: &mut [u8; 65536], at: usize, stations: [Listed; 64], n: usize) -> usize
    ensures value { result ≡ past at (stations_bytes (map asked_of (take n stations))) }
    ensures room_after { room.new ≡ stored room.old at (stations_bytes (map asked_of (take n stations))) }
{
    let listed = &stations[..n.min(stations.len())];
    if at > ROOM_BYTES - STATION_BYTES * listed.len() {
        return at;
    }
    let mut next = at;
    for place in listed {
        next = station(room, next, *place);
    }
    next
}

// The records of the first so many arrivals, in order, and then of the run. All 4,096 arrivals and a run take more bytes than the room has.
pub fn ending(
    room: &mut [u8; 65536],
    at: usize,
    arrivals: [Arrival; 4096],
    count: usize,
    steps: u32,
) -> usize
    ensures value { result ≡ past at (ending_bytes (take count arrivals) steps) }
    ensures room_after { room.new ≡ stored room.old at (ending_bytes (take count arrivals) steps) }
{
    if count >= arrivals.len() {
        return at;
    }
    let due = &arrivals[..count];
    if at > ROOM_BYTES - (ARRIVAL_BYTES * due.len() + RUN_BYTES) {
        return at;
    }
    let mut next = at;
    for a in due {
        next = arrival(room, next, *a);
    }
    run(room, next, steps)
}
