// Probing one slot: who transmits, what is heard, and what becomes of the window, the clock and the round.
ghost use Rattle.std.specs.Prelude.{◌+◌, ◌<◌, ◌≤◌, ◌≡◌, true, not, leb, ltb, get_or};
ghost use Rattle.window.specs.Splitting.{in_window};
ghost use Rattle.word.specs.Word.{word_of};
ghost use Rattle.bus.specs.Parts.{addresses_of, transmitters_of, answer_at, went_on, split_of, collided_on, unheard_on, round_after, won_on, moved_by, with_moved, stepped_to, probed_slot};
ghost use Rattle.state.specs.State.{Held, standing, recorded_in};
ghost use Rattle.state.specs.Parts.{no_contenders};

use crate::{Answer, Event, Leaving, Moved, Phase, Progress, waiting};
use rules::{Discipline, Packet, Slot};
use sorts::{Address, Capability, Windowed};
use state::{Contention, Listed, Round, Segment, Settings, State, zeros};
use window::{Side, Window};

// The stations whose number in a row lies in a window, as a word. This and `in_time` stay two: one function of both, lent the test, could promise
// only some word and what the closure answers (`FnReturnsAt`) at each of its places, and each caller would say what that comes to: no plainer.
fn lying_in(w: Window, row: &[u64; 64]) -> u64
    ensures { result ≡ word_of (λ i. in_window w (get_or row.now i 0)) 64 }
{
    let mut found = 0;
    for (i, &number) in row.iter().enumerate() {
        if window::in_window(w, number) {
            found = word::set(found, i);
        }
    }
    found
}

// The stations whose value in a row is not a latest start below a slot, as a word.
fn in_time(slot: Slot, values: &[u32; 64]) -> u64
    ensures { result ≡ word_of (λ i. not (ltb (get_or values.now i 0) slot.0)) 64 }
{
    let mut found = 0;
    for (i, &latest) in values.iter().enumerate() {
        if !sorts::before(Slot(latest), slot) {
            found = word::set(found, i);
        }
    }
    found
}

// The addresses of the stations listed, as numbers that windows of addresses hold.
pub fn addresses_of(listed: [Listed; 64]) -> [u64; 64]
    ensures { result ≡ addresses_of listed }
{
    listed.map(|l| l.address.number())
}

// The word of those who transmit: 'its parameter (in the tie phase: its address) lies in the window and, in RTDG, its latest start is not
// below the slot being probed'. The rows are lent: nothing that is only read is copied.
pub fn transmitters(g: &Segment, addresses: &[u64; 64]) -> u64
    ensures { result ≡ transmitters_of g.now.settings.discipline g.now.clock g.now.contention g.now.contenders g.now.parameters g.now.values addresses.now }
{
    let contenders = g.contenders;
    let contention = g.contention;
    if contenders == 0 {
        return 0;
    }
    let able = match Discipline::from(g.settings.discipline) {
        Discipline::PRI | Discipline::RTVC => contenders,
        Discipline::RTDG => contenders & in_time(g.clock, &g.values),
    };
    let window = contention.window;
    if contention.tied {
        // 'among the contenders of that parameter': those in the window of size 1 that starts there
        let tie = Window {
            start: contention.tie,
            size: 1,
            side: Side::Right,
        };
        return able & lying_in(tie, &g.parameters) & lying_in(window, addresses);
    }
    able & lying_in(window, &g.parameters)
}

// The answer to a probe without a winner. The drops are beside the progress here and below: a probe moves nothing of them (`answer_at`).
fn unsent(progress: Progress, drops: u64, event: Event, ended: bool) -> Answer
    ensures { result ≡ answer_at progress drops event (record { 0 = 0 }) 0 0 0 ended }
{
    answer_to(progress, drops, event, Address(0), 0, 0, 0, ended)
}

// The answer to a probe.
fn answer_to(
    progress: Progress,
    drops: u64,
    event: Event,
    address: Address,
    number: u32,
    length: u32,
    wait: u32,
    ended: bool,
) -> Answer
    ensures { result ≡ answer_at progress drops event address number length wait ended }
{
    let contention = progress.contention;
    let window = contention.window;
    let slot = progress.clock;
    let phase = if contention.tied {
        Phase::Tie
    } else {
        Phase::Parameter
    };
    Answer {
        refusal: 0,
        drops,
        slot,
        phase,
        start: window.start,
        size: window.size,
        event,
        address,
        number,
        length,
        wait,
        ended,
    }
}

// The slot that many slots later.
fn later(t: Slot, slots: u32) -> Slot
    requires { t.0 + slots ≤ 4294967295 }
    ensures { result.0 ≡ t.0 + slots }
{
    Slot(t.0 + slots)
}

// The contention goes on, one slot later.
fn went_on(progress: Progress, c: Contention) -> Progress
    requires { progress.clock.0 + 1 ≤ 4294967295 }
    ensures { result ≡ went_on progress c }
{
    Progress {
        clock: later(progress.clock, 1),
        contention: c,
        ..progress
    }
}

// 'A window of size 2 or more becomes its left half, side left. A window of size 1 starts the tie phase among the contenders of that
// parameter: the first window of A, start 0, side right.'
fn split(a: u32, c: Contention) -> Contention
    ensures { result ≡ split_of a c (leb 2 c.window.size) c.tied }
{
    let w = c.window;
    if 2 <= w.size {
        return Contention {
            begun: true,
            window: window::left_half(w),
            ..c
        };
    }
    let first = window::first_window(a);
    let tie = if c.tied { c.tie } else { w.start };
    Contention {
        begun: true,
        window: first,
        tied: true,
        tie,
    }
}

// 'Two or more: collision.'
fn collided(a: u32, progress: Progress, drops: u64) -> Moved
    requires { progress.clock.0 + 1 ≤ 4294967295 }
    ensures { result ≡ collided_on a progress drops }
{
    let c = split(a, progress.contention);
    let next = went_on(progress, c);
    let answer = unsent(progress, drops, Event::Collision, false);
    Moved {
        answer,
        progress: next,
    }
}

// 'None: idle. Side left: the window moves right by its size, side right. Side right: the contention ends without a winner.'
fn unheard(progress: Progress, drops: u64) -> Moved
    requires { progress.clock.0 + 1 ≤ 4294967295 }
    ensures { result ≡ unheard_on progress drops progress.contention.window.side }
{
    let c = progress.contention;
    let w = c.window;
    let side = w.side;
    match side {
        Side::Left => {
            let onto = Contention {
                begun: true,
                window: window::move_right(w),
                ..c
            };
            let next = went_on(progress, onto);
            let answer = unsent(progress, drops, Event::Idle, false);
            Moved {
                answer,
                progress: next,
            }
        }
        Side::Right => {
            let clock = later(progress.clock, 1);
            let answer = unsent(progress, drops, Event::Idle, true);
            let next = Progress {
                clock,
                sent: progress.sent,
                round: zeros::NO_ROUND,
                contention: zeros::NO_CONTENTION,
            };
            Moved {
                answer,
                progress: next,
            }
        }
    }
}

// 'In RTVC the last winner is set.'
fn round_after(discipline: Discipline, capability: Capability) -> Round
    ensures { result ≡ round_after discipline capability }
{
    match discipline {
        Discipline::PRI | Discipline::RTDG => zeros::NO_ROUND,
        Discipline::RTVC => Round {
            won: true,
            last: capability,
        },
    }
}

// 'One transmits: success. .. The probed slot is its first, so the clock moves on by its length.' P1: 'the number of slots from there to the
// probe that won', from the packet's admission slot.
fn won(discipline: Discipline, progress: Progress, drops: u64, l: Listed, packet: Packet) -> Moved
    requires length_bound { progress.clock.0 + packet.length ≤ 4294967295 }
    requires sent_bound { progress.sent < 4294967295 }
    ensures { result ≡ won_on discipline progress drops l packet }
{
    let clock = later(progress.clock, packet.length);
    let round = round_after(discipline, l.capability);
    let wait = sorts::slots_until(packet.admission, progress.clock);
    let answer = answer_to(
        progress,
        drops,
        Event::Success,
        l.address,
        packet.number,
        packet.length,
        wait,
        true,
    );
    let next = Progress {
        clock,
        sent: progress.sent + 1,
        round,
        contention: zeros::NO_CONTENTION,
    };
    Moved {
        answer,
        progress: next,
    }
}

// What a probe moves, by how many transmit: 'idle, success and collision follow from how many bits are set'. The station and the packet are the
// sole winner's.
pub fn moved(
    settings: Settings,
    progress: Progress,
    drops: u64,
    count: u32,
    listed: Listed,
    packet: Packet,
) -> Moved
    requires clock_bound { progress.clock.0 ≤ 1073741824 }
    requires length_bound { packet.length ≤ 4096 }
    requires sent_bound { (count ≡ 1) → progress.sent < 4294967295 }
    ensures { result ≡ moved_by settings progress drops count listed packet }
{
    if count == 0 {
        return unheard(progress, drops);
    }
    if count == 1 {
        return won(
            Discipline::from(settings.discipline),
            progress,
            drops,
            listed,
            packet,
        );
    }
    collided(settings.a, progress, drops)
}

// What a probe has moved, stored; no contenders where the contention has ended. Where none is recorded no row is cleared.
fn store(g: &mut Segment, m: Moved)
    requires { g.old.contenders ≡ 0 → recorded_in g.old ≡ no_contenders }
    ensures { g.new ≡ with_moved g.old m }
{
    let answer = m.answer;
    let progress = m.progress;
    g.clock = progress.clock;
    g.sent = progress.sent;
    g.round = progress.round;
    g.contention = progress.contention;
    // 'Contenders stay recorded until the contention ends.'
    if answer.ended && g.contenders != 0 {
        g.contenders = 0;
        g.parameters = [0; 64];
        g.numbers = [0; 64];
        g.values = [0; 64];
        g.lengths = [0; 64];
        g.admissions = [zeros::NO_SLOT; 64];
    }
}

// 'Every step then probes one slot', of a state in which a contention is under way, where so many late packets were dropped as it began.
pub fn probe_in(s: &mut State, drops: u64, addresses: &[u64; 64]) -> Answer
    requires held { Held s.old }
    requires stands { standing s.old ≡ true }
    requires begun { s.old.segment.contention.begun ≡ true }
    requires addresses { addresses.now ≡ addresses_of s.old.segment.listed }
    ensures probed { stepped_to result s.new ≡ probed_slot s.old drops }
    ensures listed { s.new.segment.listed ≡ s.old.segment.listed }
{
    let settings = s.segment.settings;
    let progress = Progress {
        clock: s.segment.clock,
        sent: s.segment.sent,
        round: s.segment.round,
        contention: s.segment.contention,
    };
    let transmitters = transmitters(&s.segment, addresses);
    let heard = word::count(transmitters);
    // Zeros unless one transmits, as `sole_of` and `moved_by` have them.
    let mut place = 0;
    let mut listed = zeros::NOBODY;
    let mut packet = zeros::NO_PACKET;
    if heard == 1 {
        place = word::lowest(transmitters);
        listed = s.segment.listed[place];
        packet = Packet {
            number: s.segment.numbers[place],
            value: s.segment.values[place],
            length: s.segment.lengths[place],
            admission: s.segment.admissions[place],
        };
    }
    let moved = moved(settings, progress, drops, heard, listed, packet);
    let answer = moved.answer;
    store(&mut s.segment, moved);
    // 'That packet leaves its queue.'
    if answer.event == Event::Success {
        waiting::close_up(&mut s.queues, place, Leaving::Sent(answer.number));
    }
    answer
}
