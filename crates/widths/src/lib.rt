// A number in a wider type, for code that names the types. Elsewhere the crates write `u64::from(x)` or `x as usize`.
#![tactic(auto)]

ghost use Rattle.std.specs.Prelude.{◌≡◌, ◌≤◌};

pub fn usize_of_u8(byte: u8) -> usize
    ensures { (result ≡ byte) × (result ≤ 255) }
{
    usize::from(byte)
}

pub fn usize_of_u32(x: u32) -> usize
    ensures { (result ≡ x) × (result ≤ 4294967295) }
{
    x as usize
}

pub fn u64_of_u32(word: u32) -> u64
    ensures { (result ≡ word) × (result ≤ 4294967295) }
{
    u64::from(word)
}

pub fn u64_of_usize(size: usize) -> u64
    ensures { result ≡ size }
{
    size as u64
}
