// Whether bytes are 0, many at once, and writing zeros.
#![tactic(auto)]

ghost use Rattle.std.specs.Prelude.{◌≡◌, ◌++◌, ◌+◌, ◌-◌, ◌≤◌, length, take, drop};
ghost use Rattle.p6_zeros.specs.Zeros.{zeros};
ghost use Rattle.p6_zeros.specs.Mirror.{long_at, zero_in, zero_from};

// How many bytes are tested for 0 at once.
const BLOCK: usize = 128;

// Eight bytes as one number, low byte first: LLVM makes one load of it.
#[tactic(auto, unfolding(crate::specs::Mirror::long_at))]
pub fn long_at(b: &[u8], at: usize) -> u64
    requires { at + 8 ≤ length b.now }
    ensures { result ≡ long_at b.now at }
{
    u64::from_le_bytes([
        b[at],
        b[at + 1],
        b[at + 2],
        b[at + 3],
        b[at + 4],
        b[at + 5],
        b[at + 6],
        b[at + 7],
    ])
}

// Whether the 128 bytes from a place on are 0. This loop and that of `few_zero` have no way out, so that the search is done by vectors.
fn block_zero(b: &[u8], at: usize) -> bool
    requires { at + 128 ≤ length b.now }
    ensures { result ≡ zero_in b.now 128 at }
{
    let mut seen: u64 = 0;
    for j in 0..BLOCK / 8 {
        seen |= long_at(b, at + 8 * j);
    }
    seen == 0
}

#[tactic(auto, using(crate::proofs::Zeros::run_on, crate::proofs::Zeros::one_byte), unfolding(crate::specs::Mirror::zero_in, crate::specs::Mirror::zero_from))]
fn few_zero(b: &[u8]) -> bool
    ensures { result ≡ zero_from b.now 0 }
{
    let mut seen: u8 = 0;
    for x in b {
        seen |= *x;
    }
    seen == 0
}

// By blocks. The last one is taken from the end, over bytes that were seen.
pub fn all_zero(b: &[u8]) -> bool
    ensures { result ≡ zero_from b.now 0 }
{
    let Some(last) = b.len().checked_sub(BLOCK) else {
        return few_zero(b);
    };
    (0..last.div_ceil(BLOCK)).all(|i| block_zero(b, BLOCK * i)) && block_zero(b, last)
}

pub fn put_zeros(b: &mut [u8], at: usize, end: usize)
    requires { (at ≤ end) × (end ≤ length b.old) }
    ensures { b.new ≡ take at b.old ++ (zeros (end - at) ++ drop end b.old) }
{
    b[at..end].fill(0);
}
