// The generator: its state is a number of 32 bits that wraps, and draws a place among the pending ones.
ghost use Rattle.std.specs.Prelude.{◌≡◌, ◌*◌, ◌%◌, ◌^◌, ◌<◌};
ghost use Rattle.paper.specs.Programs.{next_state, drawn_place};

// x starts at 1 and becomes 1664525x + 1013904223, wrapping at 2^32.
pub const FIRST_STATE: u32 = 1;

const MULTIPLIER: u32 = 1664525;

const INCREMENT: u32 = 1013904223;

// The product of two numbers of 32 bits, modulo 2^32. In 64 bits it does not wrap. Document 01 names this form: a multiply helper of
// the program's own.
fn wrapping_mul(a: u32, b: u32) -> u32
    ensures { result ≡ (a * b) % 2 ^ 32 }
{
    (u64::from(a) * u64::from(b) % 4294967296) as u32
}

// The state after x.
pub fn next_state(x: u32) -> u32
    ensures { result ≡ next_state x }
{
    wrapping_mul(MULTIPLIER, x).wrapping_add(INCREMENT)
}

// The place that the state x draws of n pending ones: x divided by 65,536, remainder by n. `as`, for no `From` makes a usize of a u32.
pub fn drawn_place(x: u32, n: usize) -> usize
    requires { 0 < n }
    ensures { result ≡ drawn_place x n }
{
    x as usize / 65536 % n
}
