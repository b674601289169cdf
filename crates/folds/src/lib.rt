// The checksum of an entry, CRC-16/IBM-3740, once more: by folding wide registers, without a table.
//
// A sum is the remainder of the bytes, read as one number, by a polynomial of four terms. The
// polynomial's square, fourth and eighth powers have four terms too, so a register of 32, 64 or 128
// bits moves up by its own width with a few shifts, and the bytes that follow are added below.
// Both public functions take any bytes, and answer what `checksum::update` and `checksum::hash` do.
#![tactic(auto)]

ghost use Rattle.std.specs.Prelude.{◌≡◌, ◌+◌, ◌*◌, ◌^◌, ◌<◌, ◌≤◌, length, drop};
ghost use Rattle.checksum.specs.Catalogue.{byte, crc_from, crc16};
ghost use Rattle.checksum.specs.Remainder.{Multiple};
ghost use Rattle.folds.specs.Leaves.{Same, Reads, followed};
ghost use Rattle.folds.specs.Folded.{times, quotient};

// How many times the polynomial's M-th power goes into a register of 16 * M bits that is moved up by
// as many places.
#[tactic(auto, unfolding(crate::specs::Folded::quotient))]
fn quotient<const M: u32>(x: u128) -> u128
    requires { M ≤ 8 }
    ensures { result ≡ quotient M x }
{
    let y = x ^ (x >> (4 * M));
    (y ^ (y >> (8 * M))) ^ (x >> (11 * M))
}

// A register of 16 * M bits, moved up by as many places: what is left of it in 16 * M bits. It is
// what the power's lower terms bring for the quotient. The highest of them is added first: added last,
// it made a run of seven bytes a tenth slower.
#[tactic(auto, using(crate::proofs::Folds::fold_code))]
fn fold<const M: u32>(x: u64) -> u64
    requires width { M ≤ 4 }
    requires power { Multiple (times M 1) }
    requires fits { x < 2 ^ (16 * M) }
    ensures left { Same (x * 2 ^ (16 * M)) result }
    ensures fits { result < 2 ^ (16 * M) }
{
    let q = quotient::<M>(x as u128);
    (((q ^ (q << (12 * M))) ^ (q << (5 * M))) % (1 << (16 * M))) as u64
}

// Eight bytes as one number, the first highest.
fn eight(s: &[u8], i: usize) -> u64
    requires { i + 8 ≤ length s.now }
    ensures { Reads s.now i 8 result }
{
    let (eights, _) = s[i..].as_chunks::<8>();
    u64::from_be_bytes(eights[0])
}

// What 64 bits, moved up by 16 places, leave: their upper half goes first, then the upper quarter.
#[tactic(auto, using(crate::proofs::Folds::power_1, crate::proofs::Folds::power_2))]
fn finish(x: u64) -> u16
    ensures { Same (x * 2 ^ 16) result }
{
    let y = fold::<2>(x >> 32) ^ (x % (1 << 32));
    let z = fold::<1>(y >> 16) ^ (y % (1 << 16));
    fold::<1>(z) as u16
}

// What x and the bytes from i on leave, fewer than eight. One load takes them, with bytes before
// them that x has already.
#[tactic(auto, using(crate::proofs::Folds::power_4))]
fn ended(x: u64, s: &[u8], i: usize) -> u16
    requires { (8 ≤ length s.now) × (i ≤ length s.now) × (length s.now < i + 8) }
    ensures { Same (followed x (drop i s.now) * 2 ^ 16) result }
{
    let n = s.len();
    if i == n {
        return finish(x);
    }
    let bits = 8 * (n - i);
    let last = eight(s, n - 8) % (1 << bits);
    finish((fold::<4>(x >> (64 - bits)) ^ (x << bits)) ^ last)
}

// What x and the bytes from the eighth on leave, where there are eight of them or more: sixteen a
// turn, in a register of 128 bits, and after the last turn eight more if that many are left. The
// register goes from turn to turn in two parts. One of them, `late`, comes out of a turn last, and so
// only one addition is left that has to wait for it; of one number the compiler makes a chain of them.
#[tactic(auto, using(crate::proofs::Folds::power_4, crate::proofs::Numbers::upper_lt, crate::proofs::Numbers::added_lt))]
fn wide(x: u64, s: &[u8]) -> u16
    requires { 16 ≤ length s.now }
    ensures { Same (followed x (drop 8 s.now) * 2 ^ 16) result }
{
    let (turns, rest) = s[16..].as_chunks::<16>();
    let mut early = ((x as u128) << 64) ^ (eight(s, 8) as u128);
    let mut late = 0;
    for &turn in turns {
        let q = quotient::<8>(early ^ late);
        early = (u128::from_be_bytes(turn) ^ q) ^ (q << 96);
        late = q << 40;
    }
    let y = early ^ late;
    let z = fold::<4>((y >> 64) as u64) ^ ((y % (1 << 64)) as u64);
    let i = s.len() - rest.len();
    if rest.len() < 8 {
        return ended(z, s, i);
    }
    ended(fold::<4>(z) ^ eight(s, i), s, i + 8)
}

// The register after one byte: the byte and the register's upper half meet in the eight bits that
// leave.
#[tactic(auto, using(crate::proofs::Folds::power_1, crate::proofs::Numbers::byte_folded))]
fn step_byte(state: u16, b: u8) -> u16
    ensures { result ≡ byte state b }
{
    (state << 8) ^ (fold::<1>(((state >> 8) ^ (b as u16)) as u64) as u16)
}

// The register after a run of a few bytes, one at a time.
#[tactic(auto, using(checksum::proofs::Runs::crc_from_next, checksum::proofs::Runs::crc_from_end))]
fn narrow(state: u16, bytes: &[u8]) -> u16
    ensures { result ≡ crc_from state bytes.now }
{
    let mut r = state;
    for &b in bytes {
        r = step_byte(r, b);
    }
    r
}

// The sum of a run that goes on: `sum_on(sum(a), b)` is the sum of a with b after it. The state is
// added to the first two bytes.
pub fn sum_on(state: u16, bytes: &[u8]) -> u16
    ensures { result ≡ crc_from state bytes.now }
{
    if bytes.len() < 8 {
        return narrow(state, bytes);
    }
    let first = eight(bytes, 0) ^ ((state as u64) << 48);
    if bytes.len() < 16 {
        return ended(first, bytes, 8);
    }
    wide(first, bytes)
}

// The sum of a run of bytes.
#[tactic(auto, unfolding(checksum::specs::Catalogue::crc16))]
pub fn sum(bytes: &[u8]) -> u16
    ensures { result ≡ crc16 bytes.now }
{
    sum_on(0xffff, bytes)
}
