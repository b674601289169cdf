// The checksum of any long stretch of a region, in a time that doesn't grow with the stretch.
#![tactic(auto)]

ghost use Rattle.std.specs.Prelude.{◌≡◌, ℕ, ◌+◌, ◌-◌, ◌*◌, ◌/◌, ◌<◌, ◌≤◌, length, slice_index, take, drop};
ghost use Rattle.checksum.specs.Catalogue.{step, crc16};
ghost use Rattle.window.specs.Windows.{Registers, PowersLeft, Times};

// As many registers, and as many powers.
pub const PLACES: usize = 1024;
// Bytes between two registers.
pub const APART: usize = 256;
// What x ^ 2048 leaves.
const POWER: u16 = 64848;

// The registers of a region's bytes from the base on, one for every 256 bytes, and the powers of
// x ^ 2048. `count` registers are there, and as soon as there is one, the powers are there too.
// Anyone may take a window apart, and make one of registers and powers that he has: what he shows
// is `Keeps` of them (`keeps_makes`, of proofs/Places.antt).
#[derive(Clone, Copy)]
pub struct Window<'a> {
    pub region: &'a [u8],
    pub registers: [u16; PLACES],
    pub powers: [u16; PLACES],
    pub base: usize,
    pub count: usize,
    pub ghost bytes: { (i : ℕ) → slice_index region.now i < 256 },
    pub ghost room: { count ≤ 1024 },
    pub ghost taken: { Registers registers region.now base count },
    pub ghost known: { 0 < count → PowersLeft powers 1024 },
}

// The register after one bit.
#[tactic(auto, using(crate::proofs::Products::taken_times), unfolding(checksum::specs::Catalogue::step))]
fn double(r: u16) -> u16
    ensures { result ≡ step r }
{
    (r << 1) ^ ((r >> 15) * 0x1021)
}

// What a product leaves: for each binary digit of the first factor, the highest first, what is
// there is doubled, and the second factor is added where the digit is 1. To multiply by a digit
// costs less than a branch that goes either way.
#[tactic(auto, using(crate::proofs::Products::times_none, crate::proofs::Products::times_more))]
fn mul(a: u16, b: u16) -> u16
    ensures { Times a b result }
{
    let mut r: u16 = 0;
    for k in (0..16u32).rev() {
        r = double(r) ^ (b * ((a >> k) % 2));
    }
    r
}

impl<'a> Window<'a> {
    // A window on these bytes that isn't open yet: it has no registers.
    pub fn on(region: &'a [u8]) -> Window<'a>
        ensures { result.region.now ≡ region.now }
    {
        Window {
            region,
            registers: [0; PLACES],
            powers: [0; PLACES],
            base: 0,
            count: 0,
        }
    }

    // The powers, each from the one before it.
    #[tactic(auto, using(crate::proofs::Places::powers_first, crate::proofs::Places::powers_more))]
    fn fill_powers(&mut self)
        requires { self.old.count ≡ 0 }
        ensures { PowersLeft self.new.powers 1024 × (self.new.region.now ≡ self.old.region.now) }
    {
        self.powers[0] = 1;
        for place in 1..PLACES {
            self.powers[place] = mul(self.powers[place - 1], POWER);
        }
    }

    // The window begins at `from`, with the register after no bytes.
    #[tactic(auto, using(crate::proofs::Places::registers_first))]
    fn begin(&mut self, from: usize)
        requires { PowersLeft self.old.powers 1024 }
        ensures { (self.new.base ≡ from) × (self.new.count ≡ 1) × (self.new.region.now ≡ self.old.region.now) }
    {
        self.base = from;
        self.count = 1;
        self.registers[0] = 0;
    }

    // The registers up to the place `last`, each from the one before it.
    #[tactic(auto, using(crate::proofs::Places::registers_more))]
    fn widen(&mut self, last: usize)
        requires { (0 < self.old.count) × (last < 1024) × (self.old.base + 256 * last ≤ length self.old.region.now) }
        ensures { (last < self.new.count) × (self.new.base ≡ self.old.base) × (self.new.region.now ≡ self.old.region.now) }
    {
        for place in self.count..last + 1 {
            let at = self.base + APART * (place - 1);
            self.registers[place] = folds::sum_on(
                self.registers[place - 1],
                &self.region[at..at + APART],
            );
            self.count = place + 1;
        }
    }

    // The sum from two registers and the power between them. The bytes before the first of the two
    // places are summed as they are, and so are those after the last: fewer than 256 each.
    fn join(&self, from: usize, to: usize) -> u16
        requires { ((to - self.now.base) / 256 < self.now.count) × (self.now.base ≤ from) × (from + 256 ≤ to) × (to ≤ length self.now.region.now) }
        ensures { result ≡ crc16 (take (to - from) (drop from self.now.region.now)) }
    {
        let base = self.base;
        let low = (from - base + (APART - 1)) / APART;
        let high = (to - base) / APART;
        let first = base + APART * low;
        let last = base + APART * high;
        let before = folds::sum(&self.region[from..first]);
        let power = self.powers[high - low];
        let between = self.registers[high] ^ mul(self.registers[low] ^ before, power);
        folds::sum_on(between, &self.region[last..to])
    }

    // The sum of the bytes from `from` up to `to`, which are 256 at the least. A window that isn't
    // open yet, that begins too late or that has too few places begins anew at `from`.
    pub fn sum_between(&mut self, from: usize, to: usize) -> u16
        requires { (from + 256 ≤ to) × (to < from + 262144) × (to ≤ length self.old.region.now) }
        ensures sum { result ≡ crc16 (take (to - from) (drop from self.old.region.now)) }
        ensures region { self.new.region.now ≡ self.old.region.now }
    {
        if self.count == 0 {
            self.fill_powers();
            self.begin(from);
        } else if from < self.base || PLACES * APART <= to - self.base {
            self.begin(from);
        }
        self.widen((to - self.base) / APART);
        self.join(from, to)
    }
}
