// Little-endian numbers of 16 and 32 bits in byte slices, read and written.
#![tactic(auto)]

ghost use Rattle.std.specs.Prelude.{◌≡◌, ◌+◌, ◌≤◌, ◌<◌, length};
ghost use Rattle.wire.specs.Wire.{u16_at, u32_at, put16, put32};

#[tactic(auto, unfolding(crate::specs::Wire::u16_at))]
pub fn u16_at(s: &[u8], at: usize) -> u16
    requires { at + 2 ≤ length s.now }
    ensures { result ≡ u16_at s.now at }
{
    u16::from_le_bytes([s[at], s[at + 1]])
}

pub fn u32_at(s: &[u8], at: usize) -> u32
    requires { at + 4 ≤ length s.now }
    ensures { result ≡ u32_at s.now at }
{
    u32::from_le_bytes([s[at], s[at + 1], s[at + 2], s[at + 3]])
}

#[tactic(auto, unfolding(crate::specs::Wire::put16))]
pub fn put16(s: &mut [u8], at: usize, n: u16)
    requires { at + 2 ≤ length s.old }
    ensures { s.new ≡ put16 s.old at n }
{
    s[at] = (n % 256) as u8;
    s[at + 1] = (n / 256) as u8;
}

#[tactic(auto, unfolding(crate::specs::Wire::put32))]
pub fn put32(s: &mut [u8], at: usize, n: u32)
    requires { at + 4 ≤ length s.old }
    ensures { s.new ≡ put32 s.old at n }
{
    put16(s, at, (n % 65536) as u16);
    put16(s, at + 2, (n / 65536) as u16);
}
