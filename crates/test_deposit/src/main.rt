// Each line of the input is a deposit. Its words: a name, the number that it must raise (0: it is opened), how many sections, symbols, relocations, name
// bytes and data bytes it has, its length in bytes plus 1 (0: the blocks that its stream takes), and changes of three numbers each:
//     1 P V    byte P of the stream is V
//     4 P V    the 32-bit number at P of the stream is V
//     0 I V    byte I of the deposit is V, after the checks were put in
// Unless changed, record i has index i + 1, a symbol lies in section 1, a relocation's target is symbol 1, a name byte is `a`, and all else is 0.
// For each the program writes the name, what was expected, and what `open` answered: the refusal's number, or 0 and six numbers of the view:
// byte order, sections, symbols, relocations, and where the names and the data begin.
#![tactic(auto)]

ghost use Rattle.std.specs.Prelude.{◌≡◌, ◌-◌, ◌^◌, ◌<◌, ◌≤◌, length};

use input::{byte_room, read_full};
use model::{Head, Refusal};
use records::{Object, end_of, names_at, relocations_at, symbols_at};
use std::io;
use std::num::wrapping_add_u32;

// The line in front of s, and what is behind the byte that ends it.
fn cut_line(s: &[u8]) -> (&[u8], &[u8])
    ensures { length result.1.now ≤ length s.now - 1 }
{
    match s.iter().position(|x| *x == b'\n') {
        Some(n) => (&s[..n], &s[n + 1..]),
        None => (s, &s[s.len()..]),
    }
}

// The word in front of s, and what is behind it: the space first.
fn cut_word(s: &[u8]) -> (&[u8], &[u8]) {
    s.split_at(s.iter().position(|x| *x == b' ').unwrap_or(s.len()))
}

// The number behind the byte that s begins with, and what is behind it: no digit, or a digit behind one that the number is too large for.
fn number(s: &[u8]) -> (u32, &[u8])
    ensures { length result.1.now ≤ length s.now - 1 }
{
    let digits = &s[s.len().min(1)..];
    let mut value: u64 = 0;
    for (i, c) in digits.iter().enumerate() {
        if !c.is_ascii_digit() || value > 4294967296 {
            return (narrow(value), &digits[i..]);
        }
        value = value * 10 + u64::from(*c - b'0');
    }
    (narrow(value), &digits[digits.len()..])
}

fn narrow(value: u64) -> u32 {
    u32::try_from(value).unwrap_or(u32::MAX)
}

// Byte p of the stream.
fn put(d: &mut [u8], p: usize, v: u8) {
    if p < d.len() {
        let i = p + p / 508 * 4;
        if i < d.len() {
            d[i] = v;
        }
    }
}

fn put32(d: &mut [u8], p: usize, v: u32)
    requires { p < 2 ^ 60 }
{
    for (k, byte) in v.to_le_bytes().iter().enumerate() {
        put(d, p + k, *byte);
    }
}

// A number of each of `count` records of w bytes, the first at p: the first is v, and each is `more` above the one before.
fn put_each(d: &mut [u8], p: usize, w: usize, count: u32, v: u32, more: u32)
    requires { (p < 2 ^ 44) × (w < 64) }
{
    let mut at = p;
    let mut x = v;
    for _ in 0..count {
        if at > 4000000 {
            break;
        }
        put32(d, at, x);
        at += w;
        x = wrapping_add_u32(x, more);
    }
}

fn put_head(d: &mut [u8], h: Head) {
    put32(d, 4, h.sections);
    put32(d, 8, h.symbols);
    put32(d, 12, h.relocations);
    put32(d, 16, h.names);
    put32(d, 20, h.bytes);
}

fn put_tables(d: &mut [u8], h: Head) {
    put_each(d, 32, 48, h.sections, 1, 1);
    put_each(d, symbols_at(h), 40, h.symbols, 1, 1);
    put_each(d, symbols_at(h) + 4, 40, h.symbols, 1, 0);
    put_each(d, relocations_at(h) + 8, 16, h.relocations, 1, 0);
    put_each(d, names_at(h), 1, h.names, 97, 0);
}

// The sum of k × byte k of a block, as the sum of its sums from the end on.
fn weigh(b: &[u8]) -> u32
    requires { 508 ≤ length b.now }
{
    let mut some: u32 = 0;
    let mut sum: u32 = 0;
    for x in b[..508].iter().rev() {
        some = wrapping_add_u32(some, u32::from(*x));
        sum = wrapping_add_u32(sum, some);
    }
    sum
}

// The check of a block, whose number is n.
fn put_check(block: &mut [u8], n: u32)
    requires { length block.old ≡ 512 }
{
    let sum = wrapping_add_u32(weigh(block), n);
    block[508..].copy_from_slice(&sum.to_le_bytes());
}

fn put_checks(d: &mut [u8]) {
    let mut n: u32 = 0;
    for block in d.chunks_exact_mut(512) {
        n = wrapping_add_u32(n, 1);
        put_check(block, n);
    }
}

// The changes of the stream, or those of the deposit.
fn change(d: &mut [u8], s: &[u8], deposit: bool) {
    let mut rest = s;
    // A change is as wide as its three numbers, so no range walks the line. A byte that ends a line behind a number begins a change of zeros.
    while !rest.is_empty() {
        let (kind, behind) = number(rest);
        let (place, behind) = number(behind);
        let (value, behind) = number(behind);
        change_one(d, deposit, kind, place as usize, value);
        rest = behind;
    }
}

fn change_one(d: &mut [u8], deposit: bool, kind: u32, i: usize, v: u32)
    requires { i < 2 ^ 60 }
{
    let low = v.to_le_bytes()[0];
    match (deposit, kind) {
        (true, 0) => {
            if i < d.len() {
                d[i] = low;
            }
        }
        (false, 1) => put(d, i, low),
        (false, 4) => put32(d, i, v),
        _ => {}
    }
}

// Lays a deposit out in d, which is whole blocks.
fn build(d: &mut [u8], h: Head, s: &[u8]) {
    d.fill(0);
    put_head(d, h);
    put_tables(d, h);
    change(d, s, false);
    put_checks(d);
    change(d, s, true);
}

fn say_number(rt: &impl Print, n: u32) -> io::Result<()> {
    print!(rt; " {n}")
}

fn say_opened(rt: &impl Print, opened: Result<Object, Refusal>) -> io::Result<()> {
    match opened {
        Ok(object) => {
            let v = object.records.view;
            say_number(rt, 0)?;
            say_number(rt, v.order as u32)?;
            say_number(rt, v.sections)?;
            say_number(rt, v.symbols)?;
            say_number(rt, v.relocations)?;
            say_number(rt, v.at.names)?;
            say_number(rt, v.at.bytes)
        }
        Err(r) => say_number(rt, r.number),
    }
}

// How many bytes are opened: as the line says, or the blocks that the stream takes.
fn opened_length(given: u32, h: Head) -> usize
    ensures { result < 2 ^ 45 }
{
    if given == 0 {
        return (end_of(h) + 507) / 508 * 512;
    }
    (given - 1) as usize
}

// The counts in front of s, and what is behind them.
fn shape(s: &[u8]) -> (Head, &[u8])
    ensures { length result.1.now ≤ length s.now }
{
    let (sections, s) = number(s);
    let (symbols, s) = number(s);
    let (relocations, s) = number(s);
    let (names, s) = number(s);
    let (bytes, s) = number(s);
    let head = Head {
        order: 0,
        sections,
        symbols,
        relocations,
        names,
        bytes,
        reserved: 0,
    };
    (head, s)
}

fn run_line(rt: &impl Print, s: &[u8], d: &mut [u8]) -> io::Result<()> {
    let (name, s) = cut_word(s);
    let (expected, s) = number(s);
    let (head, s) = shape(s);
    let (given, changes) = number(s);
    let n = opened_length(given, head);
    let room = (n + 512).min(d.len());
    build(&mut d[..room], head, changes);
    rt.write_all(name)?;
    rt.write_all(b" expected")?;
    say_number(rt, expected)?;
    rt.write_all(b" got")?;
    let e = n.min(d.len());
    say_opened(rt, deposit::open(&d[..e]))?;
    rt.write_all(b"\n")
}

fn run(rt: &impl Print, text: &[u8], d: &mut [u8]) -> io::Result<()> {
    let mut rest = text;
    // A line is as wide as its words, so no range walks the text.
    while !rest.is_empty() {
        let (line, behind) = cut_line(rest);
        run_line(rt, line, d)?;
        rest = behind;
    }
    Ok(())
}

fn main(rt: HostRuntime) -> io::Result<()> {
    let mut text = [0u8; 65536];
    let n = read_full(&mut rt.reader(), &mut text)?;
    let mut d = byte_room::<3145728>();
    run(&rt, &text[..n], &mut d)
}
