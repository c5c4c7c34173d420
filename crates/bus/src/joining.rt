// Admission: the station with an address, refusals 11 to 16, and the answer.
ghost use Rattle.std.specs.Prelude.{◌≤◌, ◌≡◌, true, eqb, get_or};
ghost use Rattle.state.specs.State.{Held, standing, nobody};
ghost use Rattle.bus.specs.Coded.{coded_admit, admission_result, arrival_of};
ghost use Rattle.rules.specs.Refusals.{answered};
ghost use Rattle.bus.specs.Parts.{first_place, refusal_at, asked_as, asked_if, admission_to};

use rules::{Admitted, Packet, Refusal, Slot};
use sorts::{Address, counts, disciplines};
use state::{Listed, State, standing};

// The place of the station with an address; n where there is none.
// So `first_place` has it, which `asked_if` goes by.
fn station_of(listed: &[Listed; 64], n: usize, address: Address) -> usize
    requires { n ≤ 64 }
    ensures { result ≡ first_place (λ i. eqb address.0 (get_or listed.now i nobody).address.0) 0 n }
{
    // By place: over `listed[..n]` it was tried, and the proof that such a slice has n places did not close.
    for i in 0..n {
        let s = listed[i];
        if sorts::same_address(address, s.address) {
            return i;
        }
    }
    n
}

// The first of 11 to 16 that holds, for a station's place, or N where no station has the address.
fn may_join(s: &State, place: usize, value: u32, length: u32) -> Result<(), Refusal>
    requires { s.now.segment.settings.n ≤ 64 }
    ensures { answered result ≡ refusal_at s.now.segment.settings s.now.segment.clock s.now.segment.admitted s.now.queues.lengths place value length }
{
    let settings = s.segment.settings;
    if settings.n <= place {
        return Err(Refusal::NoStation);
    }
    if !disciplines::value_fits(settings.discipline, settings.d, value) {
        return Err(Refusal::ValueRange);
    }
    if !disciplines::length_fits(length) {
        return Err(Refusal::LengthRange);
    }
    if disciplines::late(settings.discipline, s.segment.clock, value) {
        return Err(Refusal::Late);
    }
    if 16 <= s.queues.lengths[place] {
        return Err(Refusal::Filled);
    }
    if standing::MOST_ADMITTED <= s.segment.admitted {
        return Err(Refusal::AllNumbered);
    }
    Ok(())
}

// 'Admission tries 1, then 11 to 16'; 'An accepted packet is numbered 1, 2, 3 and so on': the place of its station, and its number.
fn asked(
    s: &State,
    stands: bool,
    address: Address,
    value: u32,
    length: u32,
) -> Result<(usize, u32), Refusal>
    requires { stands ≡ true → s.now.segment.settings.n ≤ 64 }
    ensures { asked_as result ≡ asked_if stands s.now.segment.settings s.now.segment.listed s.now.segment.clock s.now.segment.admitted s.now.queues.lengths address value length }
{
    if !stands {
        return Err(Refusal::Standing);
    }
    let place = station_of(&s.segment.listed, s.segment.settings.n, address);
    may_join(s, place, value, length)?;
    Ok((place, (s.segment.admitted + 1) as u32))
}

// The same in a state: an accepted packet takes the first free place of its station's queue, and one that is refused with 14 or 15 is counted. 'The
// number is the answer.'
pub fn admit_in(s: &mut State, stands: bool, address: Address, value: u32, length: u32) -> Admitted
    requires held { Held s.old }
    requires stands { stands ≡ standing s.old }
    ensures admitted { admission_to result s.new ≡ admission_result (coded_admit s.old (arrival_of address value length)) }
    ensures listed { s.new.segment.listed ≡ s.old.segment.listed }
{
    match asked(s, stands, address, value, length) {
        Ok((place, number)) => {
            let waiting = s.queues.lengths[place];
            let at = 16 * place + waiting;
            s.queues.packets[at] = Packet {
                number,
                value,
                length,
                admission: s.segment.clock,
            };
            s.queues.lengths[place] = waiting + 1;
            s.segment.admitted = u64::from(number);
            Admitted { refusal: 0, number }
        }
        Err(refused) => {
            let refusal = u32::from(refused);
            s.segment.turned = counts::turned_after(refusal, s.segment.turned);
            Admitted { refusal, number: 0 }
        }
    }
}
