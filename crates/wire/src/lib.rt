//! Numbers of two and four bytes in a slice, little-endian, and bytes written over the start of a slice.
#![tactic(auto)]

ghost use Rattle.std.specs.Prelude.{◌≡◌, ◌+◌, ◌≤◌, ◌<◌, length};
ghost use Rattle.wire.specs.Wire.{u16_at, u32_at, u16_bytes, u32_bytes, over};

// The number of two bytes at index `i`.
pub fn u16_at(s: &[u8], i: usize) -> usize
    requires { i + 2 ≤ length s.now }
    ensures { (result ≡ u16_at s.now i) × (result < 65536) }
{
    usize::from(u16::from_le_bytes([s[i], s[i + 1]]))
}

// The number of four bytes at index `i`.
pub fn u32_at(s: &[u8], i: usize) -> usize
    requires { i + 4 ≤ length s.now }
    ensures { (result ≡ u32_at s.now i) × (result < 4294967296) }
{
    u16_at(s, i) + u16_at(s, i + 2) * 65536
}

// The two bytes of a number below 65,536.
pub fn u16_bytes(n: usize) -> [u8; 2]
    ensures { result ≡ u16_bytes n }
{
    ((n % 65536) as u16).to_le_bytes()
}

// The four bytes of a number below 4,294,967,296.
pub fn u32_bytes(n: usize) -> [u8; 4]
    ensures { result ≡ u32_bytes n }
{
    ((n % 4294967296) as u32).to_le_bytes()
}

// Writes `bytes` over the start of `out`, and gives how many they are.
pub fn put(out: &mut [u8], bytes: &[u8]) -> usize
    requires { length bytes.now ≤ length out.old }
    ensures value { result ≡ length bytes.now }
    ensures out_after { out.new ≡ over bytes.now out.old }
{
    for (i, byte) in bytes.iter().enumerate() {
        out[i] = *byte;
    }
    bytes.len()
}
