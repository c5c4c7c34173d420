// The stations of a set-up: refusals 2 to 6 of its numbers, then 7 to 10 of each station in turn; and the state that it gives.
ghost use Rattle.std.specs.Prelude.{ℕ, ◌≤◌, min, ◌≡◌, ◌&&◌, ◌||◌, cond, List, [], map, ltb, eqb, length, get_or};
ghost use Rattle.rules.specs.declared.Discipline.TheVariants.{RTVC};
ghost use Rattle.rules.specs.Lists.{some_of, outside, first_of};
ghost use Rattle.rules.specs.Bus.{most_stations, least_space, most_space, code};
ghost use Rattle.rules.specs.SetUp.{Asked, fine, step_outside, capability_outside, settings_tests, station_tests, row_tests, set_up_verdict};
ghost use Rattle.state.specs.State.{nobody, row};
ghost use Rattle.state.specs.SetUp.{asked_of, request_with};
ghost use Rattle.state.specs.Parts.{verdict_at, verdict_of, address_tests, capability_tests, fresh_state};

use crate::{Fault, Listed, Queues, Segment, Settings, State, zeros};
use rules::{Refusal, Slot};
use sorts::{Address, Capability, disciplines};

// 'stations N: 1 to 64'
pub const MOST_STATIONS: usize = 64;

// 'parameter space D', 'address space A: 2 to 65,536'
const LEAST_SPACE: u32 = 2;

const MOST_SPACE: u32 = 65_536;

// 'laxity step q: RTDG: 1 to 65,535'
const MOST_STEP: u32 = 65_535;

// Whether a space is outside its range.
fn space_outside(space: u32) -> bool
    ensures { result ≡ outside least_space most_space space }
{
    !(LEAST_SPACE..=MOST_SPACE).contains(&space)
}

// 'RTDG: 1 to 65,535; otherwise exactly 1', of any number for a discipline, as `settings_tests` goes by it.
fn step_outside(discipline: u32, q: u32) -> bool
    ensures { result ≡ step_outside discipline q }
{
    if discipline == disciplines::RTDG {
        !(1..=MOST_STEP).contains(&q)
    } else {
        q != 1
    }
}

// 'stations N: 1 to 64', of a row with this many of its 64 places filled. 'A station row shorter than N gives 6.'
fn count_outside(n: usize, count: usize) -> bool
    ensures { result ≡ (outside 1 most_stations n || ltb (min count most_stations) n) }
{
    !(1..=MOST_STATIONS).contains(&n) || count < n
}

// 2 to 6, of a row with so many of its 64 places filled.
pub fn settings_verdict(settings: &Settings, count: usize) -> Result<(), Refusal>
    ensures { (row : List Asked) → length row ≡ min count most_stations → verdict_at 0 result ≡ first_of fine (settings_tests (request_with settings.now row)) }
{
    if 2 < settings.discipline {
        return Err(Refusal::Discipline);
    }
    if space_outside(settings.d) {
        return Err(Refusal::ParameterSpace);
    }
    if space_outside(settings.a) {
        return Err(Refusal::AddressSpace);
    }
    if step_outside(settings.discipline, settings.q) {
        return Err(Refusal::LaxityStep);
    }
    if count_outside(settings.n, count) {
        return Err(Refusal::StationCount);
    }
    Ok(())
}

// 'RTVC: 0 to D - 1, distinct; otherwise 0', of any number for a discipline, as `station_tests` goes by it.
fn capability_outside(discipline: u32, d: u32, capability: Capability) -> bool
    ensures { result ≡ capability_outside discipline d capability.0 }
{
    if discipline == disciplines::RTVC {
        sorts::is_past(d, capability)
    } else {
        capability != zeros::NOBODY.capability
    }
}

// Whether one of these stations has an address. One function of this and the next would take the field as a closure, as `any` does.
fn has_address(stations: &[Listed], address: Address) -> bool
    ensures { result ≡ some_of (λ l. eqb address.0 l.address.0) stations.now }
{
    stations.iter().any(|l| address == l.address)
}

// Whether one of these stations has a capability.
pub fn has_capability(stations: &[Listed], capability: Capability) -> bool
    ensures { result ≡ some_of (λ l. eqb capability.0 l.capability.0) stations.now }
{
    stations.iter().any(|l| capability == l.capability)
}

// 'RTVC: .. distinct': whether one of these stations has a capability that no other may have; by the discipline's number, as `station_tests` has it.
fn capability_taken(discipline: u32, stations: &[Listed], capability: Capability) -> bool
    ensures { result ≡ (eqb discipline (code RTVC) && some_of (λ l. eqb capability.0 l.capability.0) stations.now) }
{
    discipline == disciplines::RTVC && has_capability(stations, capability)
}

// 7 and 8, of a station behind these.
fn address_verdict(settings: &Settings, earlier: &[Listed], s: &Listed) -> Result<(), Refusal>
    ensures { (i : ℕ) → verdict_at i result ≡ first_of fine (address_tests settings.now i earlier.now s.now) }
{
    if sorts::is_past(settings.a, s.address) {
        return Err(Refusal::AddressRange);
    }
    if has_address(earlier, s.address) {
        return Err(Refusal::AddressTaken);
    }
    Ok(())
}

// 9 and 10, of a station behind these.
fn capability_verdict(settings: &Settings, earlier: &[Listed], s: &Listed) -> Result<(), Refusal>
    ensures { (i : ℕ) → verdict_at i result ≡ first_of fine (capability_tests settings.now i earlier.now s.now) }
{
    if capability_outside(settings.discipline, settings.d, s.capability) {
        return Err(Refusal::CapabilityRange);
    }
    if capability_taken(settings.discipline, earlier, s.capability) {
        return Err(Refusal::CapabilityTaken);
    }
    Ok(())
}

// 7 to 10, of a station behind these.
fn station_verdict(settings: &Settings, earlier: &[Listed], s: &Listed) -> Result<(), Refusal>
    ensures { (i : ℕ) → verdict_at i result ≡ first_of fine (station_tests (request_with settings.now []) i (map asked_of earlier.now) (asked_of s.now)) }
{
    address_verdict(settings, earlier, s)?;
    capability_verdict(settings, earlier, s)
}

// 'the first faulty station in the listed order decides'
fn first_faulty(settings: &Settings, stations: &[Listed]) -> Result<(), Fault>
    ensures { verdict_of result ≡ first_of fine (row_tests (request_with settings.now []) 0 [] (map asked_of stations.now)) }
{
    for (i, s) in stations.iter().enumerate() {
        if let Err(refusal) = station_verdict(settings, &stations[..i], s) {
            return Err(Fault {
                refusal,
                station: i,
            });
        }
    }
    Ok(())
}

// 'Set-up tries 2 to 6, then the stations in turn, each 7 to 10.' A row has no more than 64 places.
pub fn verdict(settings: &Settings, stations: &[Listed]) -> Result<(), Fault>
    requires { length stations.now ≤ 64 }
    ensures { verdict_of result ≡ set_up_verdict (request_with settings.now (map asked_of stations.now)) }
{
    settings_verdict(settings, stations.len())?;
    first_faulty(settings, &stations[..settings.n])
}

// These stations, and nobody past them.
pub fn up_to(stations: &[Listed]) -> [Listed; 64]
    requires { length stations.now ≤ 64 }
    ensures { result ≡ row 64 (λ i. get_or stations.now i nobody) }
{
    let mut listed = [zeros::NOBODY; 64];
    listed[..stations.len()].copy_from_slice(stations);
    listed
}

// A state with these stations: slot 0, empty queues, no contention, no circuit has won.
pub fn fresh(settings: Settings, listed: [Listed; 64]) -> State
    ensures { result ≡ fresh_state settings listed }
{
    State {
        segment: Segment {
            settings,
            listed,
            clock: Slot(0),
            admitted: 0,
            sent: 0,
            lost: 0,
            turned: 0,
            round: zeros::NO_ROUND,
            contention: zeros::NO_CONTENTION,
            contenders: 0,
            parameters: [0; 64],
            numbers: [0; 64],
            values: [0; 64],
            lengths: [0; 64],
            admissions: [zeros::NO_SLOT; 64],
        },
        queues: Queues {
            lengths: [0; 64],
            packets: [zeros::NO_PACKET; 1024],
        },
    }
}
