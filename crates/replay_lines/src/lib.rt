// The lines of recorded cases. A line's words are a name, a deposit or a file, patch entries, patch bytes, what is loaded (0 a deposit, 1 one with
// rewriting, 2 a file, 3 one with rewriting), and the six lent lengths of sections, programs, functions, maps, relocations and bytes. Bytes are
// hexadecimal, `xx(n)` is the byte xx and n more of it; entries are numbers joined by commas; `-` is nothing.
// What is written of a case is its name and the answer, then `zeros` if all that was lent is 0, else the five tables and the bytes, where `x(n)` again
// is x and n more of it.
#![tactic(auto)]

ghost use Rattle.std.specs.Prelude.{◌<◌, ◌≤◌, length};

use model::{Refusal, Summary};
use text::Text;

// ---- reading

// 16 where c is no hexadecimal digit.
fn digit(c: u8) -> u16
    ensures { result ≤ 16 }
{
    match c {
        b'0'..=b'9' => u16::from(c - b'0'),
        b'a'..=b'f' => u16::from(c - b'a') + 10,
        _ => 16,
    }
}

// The number in front of s, up to a digit that would not fit, and how many digits it has.
fn number(s: &[u8]) -> (u64, usize)
    ensures { result.1 ≤ length s.now }
{
    let mut value: u64 = 0;
    for (i, c) in s.iter().enumerate() {
        if !c.is_ascii_digit() || value > u64::MAX / 10 {
            return (value, i);
        }
        value = (value * 10).wrapping_add(u64::from(*c - b'0'));
    }
    (value, s.len())
}

// The word in front of s, and what is behind the space that ends it.
fn split_word(s: &[u8]) -> (&[u8], &[u8]) {
    match s.iter().position(|c| *c == b' ') {
        Some(n) => (&s[..n], &s[n + 1..]),
        None => (s, &s[s.len()..]),
    }
}

// The byte in front of `at`, `count` more times; where that ends.
fn repeat(out: &mut [u8], at: usize, count: u64) -> usize {
    if at == 0 || at > out.len() {
        return at;
    }
    let b = out[at - 1];
    let end = at + (count as usize).min(out.len() - at);
    out[at..end].fill(b);
    end
}

// The bytes of a text; how many they are.
fn unpack(s: &[u8], out: &mut [u8]) -> usize {
    let mut n = 0;
    let mut i = 0;
    // A step is as wide as what stands at i, so no range walks the text.
    while i + 1 < s.len() {
        if s[i] == b'(' {
            let (more, digits) = number(&s[i + 1..]);
            n = repeat(out, n, more);
            i += digits + 2;
        } else {
            if let Some(b) = out.get_mut(n) {
                *b = ((digit(s[i]) * 16 + digit(s[i + 1])) % 256) as u8;
                n += 1;
            }
            i += 2;
        }
    }
    n
}

// The numbers of a text, with a byte between two; how many they are.
fn numbers(s: &[u8], out: &mut [u64]) -> usize {
    let mut rest = s;
    for (n, x) in out.iter_mut().enumerate() {
        let (value, digits) = number(rest);
        if digits == 0 {
            return n;
        }
        *x = value;
        rest = &rest[(digits + 1).min(rest.len())..];
    }
    out.len()
}

// ---- writing

// A space, and the number.
fn put_next<const N: usize>(text: &mut Text<N>, n: u64) {
    text.push(b" ");
    text.push_number(n);
}

fn put_hex<const N: usize>(text: &mut Text<N>, b: u8) {
    let digits = b"0123456789abcdef";
    text.push(&[digits[usize::from(b / 16)], digits[usize::from(b % 16)]]);
}

// How many more there are of a value, if any.
fn put_more<const N: usize>(text: &mut Text<N>, n: usize) {
    if n > 0 {
        text.push(b"(");
        text.push_number(n as u64);
        text.push(b")");
    }
}

fn put_bytes<const N: usize>(text: &mut Text<N>, s: &[u8]) {
    text.push(b"bytes ");
    for run in s.chunk_by(|a, b| a == b) {
        if let Some((first, more)) = run.split_first() {
            put_hex(text, *first);
            put_more(text, more.len());
        }
    }
    text.push(b"\n");
}

fn put_table<const N: usize>(text: &mut Text<N>, name: &[u8], s: &[u64]) {
    text.push(name);
    for run in s.chunk_by(|a, b| a == b) {
        if let Some((first, more)) = run.split_first() {
            put_next(text, *first);
            put_more(text, more.len());
        }
    }
    text.push(b"\n");
}

fn put_version<const N: usize>(text: &mut Text<N>, v: Option<u32>) {
    match v {
        None => text.push(b" any"),
        Some(n) => put_next(text, u64::from(n)),
    }
}

fn put_summary<const N: usize>(text: &mut Text<N>, s: Summary) {
    text.push(b" accepted");
    put_next(text, s.order as u64);
    put_version(text, s.version);
    for n in [
        s.license,
        s.sections,
        s.programs,
        s.functions,
        s.maps,
        s.relocations,
        s.bytes,
    ] {
        put_next(text, n);
    }
}

fn put_refusal<const N: usize>(text: &mut Text<N>, r: Refusal) {
    text.push(b" refused");
    put_next(text, u64::from(r.number));
    put_next(text, u64::from(r.section.0));
    put_next(text, u64::from(r.symbol.0));
    put_next(text, r.entry);
}

fn put_answer<const N: usize>(text: &mut Text<N>, a: Result<Summary, Refusal>) {
    match a {
        Ok(s) => put_summary(text, s),
        Err(r) => put_refusal(text, r),
    }
}

fn put_lent<const N: usize>(
    text: &mut Text<N>,
    sections: &[u64],
    programs: &[u64],
    functions: &[u64],
    maps: &[u64],
    relocations: &[u64],
    bytes: &[u8],
) {
    let tables = [sections, programs, functions, maps, relocations];
    if tables.iter().all(|t| t.iter().all(|n| *n == 0)) && bytes.iter().all(|b| *b == 0) {
        text.push(b"zeros\n");
        return;
    }
    put_table(text, b"sections", sections);
    put_table(text, b"programs", programs);
    put_table(text, b"functions", functions);
    put_table(text, b"maps", maps);
    put_table(text, b"relocations", relocations);
    put_bytes(text, bytes);
}

// Writes the answer and what is lent behind the name.
pub fn tell(
    rt: &impl Print,
    name: &[u8],
    answer: Result<Summary, Refusal>,
    sections: &[u64],
    programs: &[u64],
    functions: &[u64],
    maps: &[u64],
    relocations: &[u64],
    bytes: &[u8],
) -> std::io::Result<()> {
    let mut text = Text::<262144>::new();
    text.push(name);
    put_answer(&mut text, answer);
    text.push(b"\n");
    put_lent(
        &mut text,
        sections,
        programs,
        functions,
        maps,
        relocations,
        bytes,
    );
    rt.write_all(text.as_bytes())
}

// ---- a case

// The lengths of a case: of its name, of what it lends to be read, and of what it lends to be written; what is loaded stands in front of the last six.
#[derive(Clone, Copy)]
pub struct Case {
    pub name: usize,
    pub deposit: usize,
    pub entries: usize,
    pub patches: usize,
    pub rest: [u64; 7],
}

pub fn read_case(s: &[u8], d: &mut [u8], entries: &mut [u64], patches: &mut [u8]) -> Case {
    let (name, s) = split_word(s);
    let (deposit, s) = split_word(s);
    let (listed, s) = split_word(s);
    let (data, lent) = split_word(s);
    let mut rest = [0u64; 7];
    numbers(lent, &mut rest);
    Case {
        name: name.len(),
        deposit: unpack(deposit, d),
        entries: numbers(listed, entries),
        patches: unpack(data, patches),
        rest,
    }
}
