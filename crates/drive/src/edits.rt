// `E`: a state with one field changed.
use crate::script::low;
use rules::Slot;
use sorts::{Address, Capability};
use state::State;
use window::Side;

// 'a side (0 left, 1 right)'
fn side_of(right: bool) -> Side {
    if right { Side::Right } else { Side::Left }
}

// Field 20, 'bit i of the word of contenders'.
fn with_bit(contenders: u64, i: usize, contends: bool) -> u64 {
    if contends {
        word::set(contenders, i)
    } else {
        word::clear(contenders, i)
    }
}

// 'the state with one field changed', the field by its number in the script; 'modulo 2 where it is a yes or no (1 is yes)'
pub fn edited(s: State, field: u64, index: u64, value: u64) -> State {
    let i = (index % 64) as usize;
    let j = (index % 1024) as usize;
    let half = low(value);
    let flag = value % 2 == 1;
    let mut g = s.segment;
    let mut q = s.queues;
    match field {
        1 => g.settings.discipline = half,
        2 => g.settings.d = half,
        3 => g.settings.a = half,
        4 => g.settings.q = half,
        5 => g.settings.n = value as usize,
        6 => g.listed[i].address = Address(half),
        7 => g.listed[i].capability = Capability(half),
        8 => g.clock = Slot(half),
        9 => g.admitted = value,
        10 => g.sent = value,
        11 => g.lost = value,
        12 => g.round.won = flag,
        13 => g.round.last = Capability(half),
        14 => g.contention.begun = flag,
        15 => g.contention.window.start = value,
        16 => g.contention.window.size = value,
        17 => g.contention.window.side = side_of(flag),
        18 => g.contention.tied = flag,
        19 => g.contention.tie = value,
        20 => g.contenders = with_bit(g.contenders, i, flag),
        21 => g.parameters[i] = value,
        22 => g.numbers[i] = half,
        23 => g.values[i] = half,
        24 => g.lengths[i] = half,
        25 => q.lengths[i] = value as usize,
        26 => q.packets[j].number = half,
        27 => q.packets[j].value = half,
        28 => q.packets[j].length = half,
        29 => g.admissions[i] = Slot(half),
        30 => q.packets[j].admission = Slot(half),
        31 => g.contenders = value,
        32 => g.turned = value,
        _ => {}
    }
    State {
        segment: g,
        queues: q,
    }
}
