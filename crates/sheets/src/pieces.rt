// A sheet's bytes, 0 beyond its end, and the hash that stands for a buffer.
ghost use Rattle.std.specs.Prelude.{◌≡◌, ◌+◌, ◌*◌, ◌≤◌, ◌<◌, length, get_or, take, drop};
ghost use Rattle.sheets.specs.Hashes.{folded, hash_from};

// The largest prime below 2^55: 258 times it fits 64 bits.
const PRIME: u64 = 36028797018963913;

// The byte at `at`.
pub(crate) fn byte(sheet: &[u8], at: usize) -> u8
    ensures { result ≡ get_or sheet.now at 0 }
{
    sheet.get(at).copied().unwrap_or(0)
}

// The bytes from `from` on.
pub(crate) fn rest(sheet: &[u8], from: usize) -> &[u8]
    ensures { result.now ≡ drop from sheet.now }
{
    &sheet[from.min(sheet.len())..]
}

// The first n bytes, or as many as there are.
pub(crate) fn first(sheet: &[u8], n: usize) -> &[u8]
    ensures { result.now ≡ take n sheet.now }
{
    &sheet[..n.min(sheet.len())]
}

// The two bytes from `at` on, low first.
pub(crate) fn two(sheet: &[u8], at: usize) -> u16 {
    let bytes = rest(sheet, at);
    u16::from_le_bytes([byte(bytes, 0), byte(bytes, 1)])
}

// The same as a size or a place.
pub(crate) fn number(sheet: &[u8], at: usize) -> usize
    ensures { result < 65536 }
{
    usize::from(two(sheet, at))
}

// A hash with one number more.
pub(crate) fn fold(h: u64, x: u64) -> u64
    ensures { result ≡ folded h x }
{
    (257 * (h % PRIME) + x % PRIME) % PRIME
}

// The bytes as the digits of a number to base 257 after a leading 1, by what it leaves when divided by the prime.
pub(crate) fn hash(bytes: &[u8]) -> u64
    ensures { result ≡ hash_from 1 bytes.now }
{
    bytes.iter().fold(1, |h, b| fold(h, u64::from(*b)))
}

// Copies the bytes to the start of `to`, as many as there is room for; gives their count.
pub(crate) fn copy(from: &[u8], to: &mut [u8]) -> usize
    ensures { result ≤ length to.new }
{
    let n = from.len().min(to.len());
    to[..n].copy_from_slice(&from[..n]);
    n
}
