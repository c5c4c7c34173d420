// Packets that wait: they leave the row of queues, and of a station's queue one is chosen to be offered.
ghost use Rattle.std.specs.Prelude.{ℕ, ◌<◌, ◌≤◌, ◌≡◌, ◌&&◌, cond, leb, ltb, get_or};
ghost use Rattle.rules.specs.Lists.{keep};
ghost use Rattle.rules.specs.Begin.{choice};
ghost use Rattle.state.specs.State.{queue_at};
ghost use Rattle.state.specs.Parts.{queue_of};
ghost use Rattle.bus.specs.Parts.{IsRow, queue_form, with_queue, stays, Late, chosen_form};

use crate::{Leaving, offering};
use rules::{Discipline, Packet, Slot};
use sorts::disciplines;
use state::{Queues, zeros};

// Whether a packet stays in its queue.
fn stays(leaving: Leaving, p: Packet) -> bool
    ensures { result ≡ stays leaving p }
{
    match leaving {
        Leaving::Late(discipline, slot) => !disciplines::late(discipline, slot, p.value),
        Leaving::Sent(number) => number != p.number,
    }
}

// The packets that leave the queue of a station: those that stay close up, and freed places are cleared. Each packet is taken out, and one that
// stays is put back in the first free place.
pub fn close_up(queues: &mut Queues, place: usize, leaving: Leaving)
    requires place_bound { place < 64 }
    requires rows { IsRow queues.old }
    requires padded { queue_of queues.old place ≡ queue_form (queue_at queues.old place) }
    requires length_bound { get_or queues.old.lengths place 0 ≤ 16 }
    ensures { queues.new ≡ with_queue queues.old place (queue_form (keep (stays leaving) (queue_at queues.old place))) }
{
    let length = queues.lengths[place];
    let first = 16 * place;
    let mut filled = 0;
    // By place: a packet that stays moves to another place of the row that is gone over.
    for j in 0..length {
        let at = first + j;
        let p = queues.packets[at];
        queues.packets[at] = zeros::NO_PACKET;
        if stays(leaving, p) {
            let free = first + filled;
            queues.packets[free] = p;
            filled += 1;
        }
    }
    queues.lengths[place] = filled;
}

// 'In RTDG every queued packet with latest start below T is dropped', of the first n stations. By place, since `close_up` is told a station's;
// the discipline by its number, as `Leaving` has it.
pub fn drop_late(queues: &mut Queues, n: usize, discipline: u32, slot: Slot)
    requires n_bound { n ≤ 64 }
    requires rows { IsRow queues.old }
    requires padded { (j : ℕ) → j < 64 → queue_of queues.old j ≡ queue_form (queue_at queues.old j) }
    requires lengths_bound { (j : ℕ) → j < 64 → get_or queues.old.lengths j 0 ≤ 16 }
    ensures rows { IsRow queues.new }
    ensures left { (j : ℕ) → j < 64 → queue_of queues.new j ≡ cond (leb 0 j && ltb j n) (queue_form (keep (stays (Late discipline slot)) (queue_at queues.old j))) (queue_of queues.old j) }
{
    for i in 0..n {
        close_up(queues, i, Leaving::Late(discipline, slot));
    }
}

// 'Each station then offers one packet': the one of a queue that none goes before. The search carries its place, and the packet is fetched at the
// end.
pub fn chosen(queue: &[Packet], discipline: Discipline) -> Option<Packet>
    ensures { result ≡ chosen_form (choice discipline queue.now) }
{
    let mut place = 0;
    for (j, p) in queue.iter().enumerate() {
        if offering::goes_before(discipline, *p, queue[place]) {
            place = j;
        }
    }
    queue.get(place).copied()
}
