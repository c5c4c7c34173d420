// Little-endian numbers in bytes. What lies past the end of the bytes counts as 0.
ghost use Rattle.std.specs.Prelude.{◌<◌, ◌≤◌, ◌≡◌, get_or, take, drop};
ghost use Rattle.scenario.specs.Format.{number};

// The byte at an offset.
fn byte(s: &[u8], at: usize) -> u8
    ensures { result ≡ get_or s.now at 0 }
{
    s.get(at).copied().unwrap_or(0)
}

// Three functions for three widths: each takes its bytes by the library's method of its type, and no const argument may be computed.

// The one-byte number at an offset.
pub fn one(s: &[u8], at: usize) -> u32
    ensures { result ≡ number (take 1 (drop at s.now)) }
{
    u32::from(byte(s, at))
}

// The two-byte number at an offset.
pub fn two(s: &[u8], at: usize) -> u32
    requires { at ≤ 16 }
    ensures { result ≡ number (take 2 (drop at s.now)) }
{
    let bytes = [byte(s, at), byte(s, at + 1)];
    u32::from(u16::from_le_bytes(bytes))
}

// The four-byte number at an offset.
pub fn four(s: &[u8], at: usize) -> u32
    requires { at ≤ 14 }
    ensures { result ≡ number (take 4 (drop at s.now)) }
{
    let bytes = [
        byte(s, at),
        byte(s, at + 1),
        byte(s, at + 2),
        byte(s, at + 3),
    ];
    u32::from_le_bytes(bytes)
}
