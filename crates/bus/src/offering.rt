// What the three disciplines do differently as a contention begins: the order of offers, parameters, and who sits out.
ghost use Rattle.std.specs.Prelude.{◌-◌, ◌/◌, ◌≤◌, min, ◌≡◌, ◌||◌, cond, ltb};
ghost use Rattle.rules.specs.Bus.{late};
ghost use Rattle.rules.specs.SetUp.{discipline_of};
ghost use Rattle.rules.specs.Begin.{smaller, goes_before, sits_out};
ghost use Rattle.state.specs.State.{last_of};
ghost use Rattle.bus.specs.Parts.{parameter_for, rank_of, looked_of};

use rules::{Discipline, Packet, Slot};
use sorts::{Capability, Windowed, disciplines};
use state::{Round, Settings};

// 'the smallest value, the lowest packet number among equals'
fn smaller(p: Packet, o: Packet) -> bool
    ensures { result ≡ smaller p o }
{
    p.value < o.value || (p.value == o.value && p.number < o.number)
}

// Whether p is offered before o.
pub fn goes_before(discipline: Discipline, p: Packet, o: Packet) -> bool
    ensures { result ≡ goes_before discipline p o }
{
    match discipline {
        Discipline::PRI | Discipline::RTDG => smaller(p, o),
        Discipline::RTVC => p.number < o.number,
    }
}

// The order of offers in PRI and RTDG as one number: the value above, the packet number below.
pub fn rank(p: Packet) -> u64
    ensures { result ≡ rank_of p }
{
    (u64::from(p.value) << 32) | u64::from(p.number)
}

// How many of a queue's packets are looked at for its offer: in RTVC the first, which has the lowest number, because numbers rise.
pub fn looked_at(discipline: Discipline, length: usize) -> usize
    ensures { result ≡ looked_of discipline length }
{
    match discipline {
        Discipline::PRI | Discipline::RTDG => length,
        Discipline::RTVC => 1,
    }
}

// Whether a packet that is offered is late: this one, or one before it. The discipline as its number, which the public `disciplines::late` takes.
pub fn late_offered(already: bool, discipline: u32, clock: Slot, value: u32) -> bool
    ensures { result ≡ (already || late (discipline_of discipline) clock.0 value) }
{
    already || disciplines::late(discipline, clock, value)
}

// '(latest start - T) divided by q, rounded down, and D - 1 where that is larger'. That q and D are not 0 is asked by each function that divides so,
// here and in `beginning`: settings may have any numbers (refusals 3 and 5), and only `standing` of the whole state excludes 0.
fn laxity(settings: Settings, clock: Slot, latest: Slot) -> u32
    requires q_positive { 1 ≤ settings.q }
    requires d_positive { 1 ≤ settings.d }
    ensures { result ≡ min ((latest.0 - clock.0) / settings.q) (settings.d - 1) }
{
    (sorts::slots_until(clock, latest) / settings.q).min(settings.d - 1)
}

// The parameter of a packet that a station of this capability offers now.
pub fn parameter(settings: Settings, clock: Slot, capability: Capability, packet: Packet) -> u64
    requires q_positive { 1 ≤ settings.q }
    requires d_positive { 1 ≤ settings.d }
    ensures { result ≡ parameter_for (discipline_of settings.discipline) settings clock capability packet }
{
    match Discipline::from(settings.discipline) {
        Discipline::PRI => u64::from(packet.value),
        Discipline::RTDG => u64::from(laxity(settings, clock, Slot(packet.value))),
        Discipline::RTVC => capability.number(),
    }
}

// 'if no circuit has won in this round or the capability is above the last winner's; otherwise the station sits out'
pub fn sits_out(discipline: Discipline, round: Round, capability: Capability) -> bool
    ensures { result ≡ sits_out discipline (last_of round) capability.0 }
{
    match discipline {
        Discipline::PRI | Discipline::RTDG => false,
        Discipline::RTVC => round.won && capability <= round.last,
    }
}
