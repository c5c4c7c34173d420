// The three sorts of numbers, each compared with its own sort and opened here; what a discipline holds a packet's numbers to (`disciplines`);
// and the count of packets turned away (`counts`). A slot, which a packet holds, is declared in the crate rules. Every function takes any
// input.
#![tactic(auto)]

ghost use Rattle.std.specs.Prelude.{ℕ, ◌-◌, ◌≡◌, leb, ltb, eqb};

use rules::Slot;

pub mod counts;
pub mod disciplines;

// 'Slots, addresses and capabilities count three separate things.'
#[derive(Clone, Copy, PartialEq, Eq)]
pub struct Address(pub u32);

#[derive(Clone, Copy, PartialEq, Eq, PartialOrd, Ord)]
pub struct Capability(pub u32);

// A sort whose numbers windows hold.
pub trait Windowed: Copy {
    ghost number_of: { Self → ℕ };

    fn number(self) -> u64
        ensures { result ≡ number_of self };
}

impl Windowed for Address {
    ghost number_of = { λ address. address.0 };

    fn number(self) -> u64 {
        let Address(address) = self;
        u64::from(address)
    }
}

impl Windowed for Capability {
    ghost number_of = { λ capability. capability.0 };

    fn number(self) -> u64 {
        let Capability(capability) = self;
        u64::from(capability)
    }
}

// Whether a number of a sort lies past the last of a space.
pub fn is_past<T: Windowed>(space: u32, number: T) -> bool
    ensures { result ≡ leb space (T.number_of number) }
{
    u64::from(space) <= number.number()
}

// The derived operators and the library's conversion by names of their own: what each promises is said, and tried, here.

// Whether slot t comes before slot u.
pub fn before(t: Slot, u: Slot) -> bool
    ensures { result ≡ ltb t.0 u.0 }
{
    t < u
}

// Whether two slots are one.
pub fn same_slot(t: Slot, u: Slot) -> bool
    ensures { result ≡ eqb t.0 u.0 }
{
    t == u
}

// How many slots lie from t to u; 0 where u comes first.
pub fn slots_until(t: Slot, u: Slot) -> u32
    ensures { result ≡ u.0 - t.0 }
{
    u.0.saturating_sub(t.0)
}

// Whether two addresses are one, compared in full.
pub fn same_address(address: Address, other: Address) -> bool
    ensures { result ≡ eqb address.0 other.0 }
{
    address == other
}

// Whether two capabilities are one.
pub fn same_capability(capability: Capability, other: Capability) -> bool
    ensures { result ≡ eqb capability.0 other.0 }
{
    capability == other
}

// Whether a capability is not above another.
pub fn not_above(capability: Capability, last: Capability) -> bool
    ensures { result ≡ leb capability.0 last.0 }
{
    capability <= last
}

// A number in more bits.
pub fn wide(x: u32) -> u64
    ensures { result ≡ x }
{
    u64::from(x)
}
