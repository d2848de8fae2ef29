// Number 1: the length of a deposit and the check of each block.
#![tactic(auto)]

ghost use Rattle.std.specs.Prelude.{◌≡◌, ◌+◌, ◌*◌, ◌<◌, ◌≤◌, length, take};
ghost use Rattle.model.specs.Bytes.{little, part};
ghost use Rattle.model.specs.Deposit.{weigh as weight_of, check_ok, checks_ok, frame_ok};
ghost use Rattle.deposit_frame.specs.Columns.{Above, AtMost, Below, IsMoment, IsSum, plain, total, weighed};

// The weight of the byte at k. The remainder changes nothing, and shows the compiler that a weight has 9 bits: products of 16 bits do.
fn weight(k: usize) -> u32
    requires { k < 508 }
    ensures { result ≡ k + 1 }
{
    (k as u32 + 1) % 512
}

// A column of bytes that stand q apart: their sum, and the sum of each one times its row, counted from 1.
#[derive(Clone, Copy)]
struct Column {
    sum: u16,
    moment: u16,
}

// The column with a byte more above it.
fn above(c: Column, x: u8) -> Column
    requires { (c.sum ≤ 1785) × (c.moment ≤ 8925) }
    ensures { (result.sum ≡ c.sum + x) × (result.moment ≡ c.moment + c.sum + x) × (x < 256) }
{
    let sum = c.sum + u16::from(x);
    Column {
        sum,
        moment: c.moment + sum,
    }
}

// The column with four bytes more above it, the topmost at i.
fn four_above(c: Column, b: &[u8], q: usize, i: usize) -> Column
    requires { (c.sum ≤ 1020) × (c.moment ≤ 2550) × (q ≤ 56) × (i + 3 * q < length b.now) }
    ensures { Above b.now q i c result }
{
    let c3 = above(c, b[i + 3 * q]);
    let c2 = above(c3, b[i + 2 * q]);
    let c1 = above(c2, b[i + q]);
    above(c1, b[i])
}

// The columns of nine rows of q bytes. The loop has 16-bit numbers alone, and two arrays in place of one of Columns, so that the compiler
// takes eight columns at once.
fn columns(b: &[u8], q: usize, sums: &mut [u16], moments: &mut [u16])
    requires { (q ≤ 56) × (9 * q ≤ length b.now) × (q ≤ length sums.old) × (q ≤ length moments.old) }
    ensures { Below (IsSum b.now q) sums.new q × Below (IsMoment b.now q) moments.new q }
{
    for j in 0..q {
        let low = four_above(Column { sum: 0, moment: 0 }, b, q, j + 5 * q);
        let c = four_above(low, b, q, j + q);
        sums[j] = c.sum + u16::from(b[j]);
        moments[j] = c.moment;
    }
}

// The sum over nine rows of q bytes, by their columns. The remainder changes nothing here either: a product of 16 bits does.
#[tactic(auto, using(crate::proofs::Laws::sums), unfolding(crate::specs::Columns::total))]
fn rows_sum(sums: &[u16; 56], moments: &[u16; 56], q: usize) -> u32
    requires { (q ≤ 56) × Below (AtMost 2295) sums.now q × Below (AtMost 9180) moments.now q }
    ensures { (result ≡ total (weighed sums.now) q + q * total (plain moments.now) q) × (result ≤ 642600 * q) }
{
    let mut sum: u32 = 0;
    let mut moment: u32 = 0;
    for j in 0..q {
        sum += weight(j) * (u32::from(sums[j]) % 4096);
        moment += u32::from(moments[j]);
    }
    sum + q as u32 * moment
}

// The sum with that of the bytes from `from` on.
#[tactic(auto, using(crate::proofs::Laws::sums))]
fn rest_sum(b: &[u8], from: usize, start: u32) -> u32
    requires { (length b.now ≤ 508) × (from ≤ length b.now) × (start ≡ weight_of 0 (take from b.now)) × (start ≤ 129540 * from) }
    ensures { (result ≡ weight_of 0 b.now) × (result ≤ 65806320) }
{
    let mut sum = start;
    for k in from..b.len() {
        sum += weight(k) * u32::from(b[k]);
    }
    sum
}

// The sum over k of k × byte k, counted from 1.
#[tactic(auto, using(crate::proofs::Laws::sums))]
fn weigh(b: &[u8]) -> u32
    requires { length b.now ≤ 508 }
    ensures { (result ≡ weight_of 0 b.now) × (result ≤ 65806320) }
{
    let q = b.len() / 9;
    let mut sums = [0; 56];
    let mut moments = [0; 56];
    columns(b, q, &mut sums, &mut moments);
    rest_sum(b, 9 * q, rows_sum(&sums, &moments, q))
}

// The number of four bytes, the lowest first.
#[tactic(auto, using(crate::proofs::Little::little_four))]
fn number_of(b: &[u8]) -> u32
    requires { length b.now ≡ 4 }
    ensures { result ≡ little b.now }
{
    u32::from_le_bytes([b[0], b[1], b[2], b[3]])
}

// Whether block n, counted from 0, has its check.
fn check_ok(d: &[u8], n: usize) -> bool
    requires { (n * 512 + 512 ≤ length d.now) × (n < 32768) }
    ensures { result ≡ check_ok (n + 1) (part d.now (n * 512) 512) }
{
    let a = n * 512;
    let e = a + 508;
    number_of(&d[e..e + 4]) == weigh(&d[a..e]) + (n as u32 + 1)
}

#[tactic(auto, using(crate::proofs::Laws::checks))]
fn checks_ok(d: &[u8], blocks: usize) -> bool
    requires { (blocks * 512 ≤ length d.now) × (blocks ≤ 32768) }
    ensures { result ≡ checks_ok blocks 1 d.now }
{
    for n in 0..blocks {
        if !check_ok(d, n) {
            return false;
        }
    }
    true
}

#[tactic(auto, using(std::proofs::lemmas::Bool::Decides::nat_tests), unfolding(model::specs::Deposit::frame_ok))]
pub fn frame_ok(d: &[u8]) -> bool
    ensures { result ≡ frame_ok d.now }
{
    let len = d.len();
    len != 0 && len <= 16777216 && len % 512 == 0 && checks_ok(d, len / 512)
}
