// Numbers in bytes, lines, and runs of bytes put over a region.
//
// These are building blocks: each asks of its caller that its bytes lie within the slice, and the
// prover holds every caller to that. None of them is a public operation of the locker log. A slice and
// a place stay two parameters: a struct for each pair would be no plainer.
#![tactic(auto)]

ghost use Rattle.std.specs.Prelude.{◌≡◌, ◌+◌, ◌^◌, ◌<◌, ◌≤◌, length, replicate};
ghost use Rattle.fields.specs.Numbers.{field, bytes_of, aligned};
ghost use Rattle.fields.specs.Runs.{over};

// The N bytes from p on, and zeros behind them: eight bytes with the same number.
fn padded<const N: usize>(s: &[u8], p: usize) -> [u8; 8]
    requires inside { p + N ≤ length s.now }
    requires width { N ≤ 8 }
    ensures { (field 8 result 0 ≡ field N s.now p) × (field N s.now p < 256 ^ N) }
{
    let mut bytes = [0; 8];
    bytes[..N].copy_from_slice(&s[p..p + N]);
    bytes
}

// The number in N bytes from p on. The caller has seen that they lie within s. The bytes go through
// an array of eight and not through a loop: of that the compiler makes one load, even for a caller
// that looks at the lower three alone, as the walk does at every line with a wrong mark.
#[tactic(auto, unfolding(crate::specs::Numbers::field))]
pub fn read<const N: usize>(s: &[u8], p: usize) -> u64
    requires inside { p + N ≤ length s.now }
    requires width { N ≤ 8 }
    ensures { (result ≡ field N s.now p) × (result < 256 ^ N) }
{
    let bytes = padded::<N>(s, p);
    u64::from_le_bytes(bytes)
}

// The N lowest bytes of v, from `at` on. The caller has seen that they lie within the region.
#[tactic(auto, using(crate::proofs::Widths::bytes_eight))]
pub fn put<const N: usize>(region: &mut [u8], at: usize, v: u64)
    requires inside { at + N ≤ length region.old }
    requires width { N ≤ 8 }
    ensures { region.new ≡ over region.old at (bytes_of N v) }
{
    put_run(region, at, &v.to_le_bytes()[..N]);
}

// A copy of `run`, from `at` on. The caller has seen that it fits. A loop and no `copy_from_slice`, which
// calls memmove: the library calls memcpy and memset alone (include/locker_log.h).
#[tactic(auto, using(crate::proofs::Laying::over_part))]
pub fn put_run(region: &mut [u8], at: usize, run: &[u8])
    requires { at + length run.now ≤ length region.old }
    ensures { region.new ≡ over region.old at run.now }
{
    for i in 0..run.len() {
        region[at + i] = run[i];
    }
}

// n times the same byte, from `at` on. The caller has seen that they fit.
#[tactic(auto, using(crate::proofs::Laying::over_part))]
pub fn fill(region: &mut [u8], at: usize, n: usize, byte: u8)
    requires { at + n ≤ length region.old }
    ensures { region.new ≡ over region.old at (replicate n byte) }
{
    region[at..at + n].fill(byte);
}

// n rounded up to a line. A length is below 2^63, and so is every sum that callers round up; from
// 2^64 - 15 on there would be no line to round up to.
#[tactic(auto, unfolding(crate::specs::Numbers::aligned))]
pub fn align_up(n: usize) -> usize
    requires { n < 2 ^ 63 }
    ensures { result ≡ aligned n }
{
    (n + 15) / 16 * 16
}
