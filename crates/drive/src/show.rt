// How a state is written.
use crate::lines;
use rules::Packet;
use state::{Contention, Listed, Queues, Segment, Settings, State};
use window::Side;

// 'settings discipline D A q n'
fn settings(s: &Settings) {
    let numbers = [
        u64::from(s.discipline),
        u64::from(s.d),
        u64::from(s.a),
        u64::from(s.q),
        s.n as u64,
    ];
    lines::write(b"settings", &numbers);
}

// 'clock slot', 'counts admitted sent lost turned-away', 'round won last'
fn counts(g: &Segment) {
    lines::write(b"clock", &[u64::from(g.clock.0)]);
    lines::write(b"counts", &[g.admitted, g.sent, g.lost, g.turned]);
    lines::write(
        b"round",
        &[u64::from(g.round.won), u64::from(g.round.last.0)],
    );
}

// 'a side (0 left, 1 right)'
fn of_side(side: Side) -> u64 {
    match side {
        Side::Left => 0,
        Side::Right => 1,
    }
}

// 'contention begun start size side tied tie'
fn contention(c: &Contention) {
    let numbers = [
        u64::from(c.begun),
        c.window.start,
        c.window.size,
        of_side(c.window.side),
        u64::from(c.tied),
        c.tie,
    ];
    lines::write(b"contention", &numbers);
}

// 'station i address capability': 'all stations first'
fn stations(listed: &[Listed]) {
    for (i, s) in listed.iter().enumerate() {
        let numbers = [i as u64, u64::from(s.address.0), u64::from(s.capability.0)];
        lines::write_place(b"station", &numbers);
    }
}

// 'contender i contends parameter number value length admission': 'then all contenders', bit i of the word, and what stands in the rows at
// place i.
fn contenders(g: &Segment) {
    for (i, parameter) in g.parameters.iter().enumerate() {
        let numbers = [
            i as u64,
            u64::from(word::test(g.contenders, i)),
            *parameter,
            u64::from(g.numbers[i]),
            u64::from(g.values[i]),
            u64::from(g.lengths[i]),
            u64::from(g.admissions[i].0),
        ];
        lines::write_place(b"contender", &numbers);
    }
}

// 'queue i length': 'all queues'
fn lengths(lengths: &[usize]) {
    for (i, length) in lengths.iter().enumerate() {
        lines::write_place(b"queue", &[i as u64, *length as u64]);
    }
}

// 'packet j number value length admission': 'all packets'
fn packets(packets: &[Packet]) {
    for (j, p) in packets.iter().enumerate() {
        let numbers = [
            j as u64,
            u64::from(p.number),
            u64::from(p.value),
            u64::from(p.length),
            u64::from(p.admission.0),
        ];
        lines::write_place(b"packet", &numbers);
    }
}

// The five lines that stand always, the stations and the contenders.
fn segment(g: &Segment) {
    settings(&g.settings);
    counts(g);
    contention(&g.contention);
    stations(&g.listed);
    contenders(g);
}

// The queues.
fn queues(q: &Queues) {
    lengths(&q.lengths);
    packets(&q.packets);
}

// The state, closed by 'end'.
pub fn state(s: &State) {
    segment(&s.segment);
    queues(&s.queues);
    io::write_all(1, b"end\n");
}
