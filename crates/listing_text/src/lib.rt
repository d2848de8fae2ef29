// The listing's text, put behind what a text has, as far as it has room.
#![tactic(auto)]

ghost use Rattle.std.specs.Prelude.{List, ℕ, ◌≡◌, ◌∷◌, ◌+◌, ◌^◌, ◌*◌, ◌<◌, ◌≤◌, length, take};
ghost use Rattle.model.specs.Bytes.{each, records, part};
ghost use Rattle.model.specs.Listing.{decimal, variant_name, version_text, program_line, function_line, map_line, refusal_text};
ghost use Rattle.model.specs.ReadBack.{program_from, program_read, map_read};
ghost use Rattle.text.specs.Pushed.{pushed};
ghost use Rattle.listing_text.specs.Variants.{variant_row};
ghost use Rattle.listing_text.specs.Flat.{function_from, top_text, flat_text, flat_answer, RowsFit, AnswerFits};

use model::{Refusal, Summary};
use text::Text;

// The variants' names in the order of their numbers, and where each begins.
const VARIANTS: [u8; 275] = *b"\
    KRetProbe\
    KProbe\
    UProbe\
    URetProbe\
    TracePoint\
    SocketFilter\
    Xdp\
    SkMsg\
    SkSkbStream\
    SockOps\
    SchedClassifier\
    CgroupSkb\
    CgroupSockAddr\
    CgroupSysctl\
    CgroupSockopt\
    LircMode2\
    PerfEvent\
    RawTracePoint\
    Lsm\
    LsmCgroup\
    BtfTracePoint\
    FEntry\
    FExit\
    FlowDissector\
    Extension\
    SkLookup\
    SkReuseport\
    CgroupSock\
    CgroupDevice\
    Iter";

const STARTS: [usize; 31] = [
    0, 9, 15, 21, 30, 40, 52, 55, 60, 71, 78, 93, 102, 116, 128, 141, 150, 159, 172, 175, 184, 197,
    203, 208, 221, 230, 238, 249, 259, 271, 275,
];

// What of the n bytes from `from` on lies in b.
fn inside(b: &[u8], from: u64, n: u64) -> &[u8]
    ensures { result.now ≡ part b.now from n }
{
    let rest = &b[(from as usize).min(b.len())..];
    &rest[..(n as usize).min(rest.len())]
}

fn put_part<const N: usize>(text: &mut Text<N>, b: &[u8], from: u64, n: u64)
    ensures { text.new ≡ pushed N text.old (part b.now from n) }
{
    text.push(inside(b, from, n));
}

// Past the last number it is the first.
#[tactic(auto, unfolding(crate::specs::Variants::variant_row))]
fn variant(number: u64) -> usize
    ensures { (result ≡ variant_row number) × (result < 30) }
{
    if number < 30 { number as usize } else { 0 }
}

fn put_variant<const N: usize>(text: &mut Text<N>, number: u64)
    ensures { text.new ≡ pushed N text.old (variant_name (program_from number 0 0)) }
{
    let i = variant(number);
    let start = STARTS[i];
    let end = STARTS[i + 1];
    text.push(&VARIANTS[start..end]);
}

// A space and the number.
fn put_number<const N: usize>(text: &mut Text<N>, n: u64)
    ensures { text.new ≡ pushed N text.old (32 ∷ decimal n) }
{
    text.push(b" ");
    text.push_number(n);
}

// A table with rows of WIDTH numbers, each of which gives a line.
trait Table<const N: usize> {
    ghost WIDTH: { ℕ };

    ghost line: { List ℕ → List ℕ → List ℕ };

    const WIDTH: usize;

    fn put_line(text: &mut Text<N>, bytes: &[u8], row: &[u64])
        requires { length row.now ≡ WIDTH }
        ensures { text.new ≡ pushed N text.old (line bytes.now row.now) };
}

struct Programs;

impl<const N: usize> Table<N> for Programs {
    ghost WIDTH = { 7 };

    ghost line = { λ b r. program_line (program_read b r) };

    const WIDTH: usize = 7;

    fn put_line(text: &mut Text<N>, bytes: &[u8], row: &[u64]) {
        text.push(b"program ");
        put_part(text, bytes, row[0], row[1]);
        text.push(b" ");
        put_variant(text, row[2]);
        put_number(text, row[5]);
        put_number(text, row[6]);
        text.push(b"\n");
    }
}

struct Functions;

impl<const N: usize> Table<N> for Functions {
    ghost WIDTH = { 7 };

    ghost line = { λ b r. function_line (function_from b r) };

    const WIDTH: usize = 7;

    fn put_line(text: &mut Text<N>, bytes: &[u8], row: &[u64]) {
        text.push(b"function");
        put_number(text, row[0]);
        put_number(text, row[1]);
        put_number(text, row[6] / 8);
        text.push(b" ");
        put_part(text, bytes, row[3], row[4]);
        text.push(b"\n");
    }
}

struct Maps;

impl<const N: usize> Table<N> for Maps {
    ghost WIDTH = { 27 };

    ghost line = { λ b r. map_line (map_read b r) };

    const WIDTH: usize = 27;

    fn put_line(text: &mut Text<N>, bytes: &[u8], row: &[u64]) {
        text.push(b"map ");
        put_part(text, bytes, row[0], row[1]);
        put_number(text, row[2]);
        put_number(text, row[9]);
        put_number(text, inside(bytes, row[5], row[6]).len() as u64);
        text.push(b"\n");
    }
}

// The lines of the first n rows.
fn put_rows<T: Table<N>, const N: usize>(text: &mut Text<N>, bytes: &[u8], rows: &[u64], n: u64)
    requires { (N < 2 ^ 62) × (n * T.WIDTH ≤ length rows.now) }
    ensures { text.new ≡ pushed N text.old (each (T.line bytes.now) (records (λ r. r) T.WIDTH n rows.now)) }
{
    let mut rest = rows;
    for _ in 0..n {
        let (row, behind) = rest.split_at(T::WIDTH);
        T::put_line(text, bytes, row);
        rest = behind;
    }
}

fn put_version<const N: usize>(text: &mut Text<N>, v: Option<u32>)
    ensures { text.new ≡ pushed N text.old (version_text v) }
{
    match v {
        None => text.push(b"any"),
        Some(n) => text.push_number(u64::from(n)),
    }
}

// The lines of the licence and the version.
fn put_top<const N: usize>(text: &mut Text<N>, bytes: &[u8], license: u64, version: Option<u32>)
    ensures { text.new ≡ pushed N text.old (top_text (take license bytes.now) version) }
{
    text.push(b"license ");
    put_part(text, bytes, 0, license);
    text.push(b"\nversion ");
    put_version(text, version);
    text.push(b"\n");
}

fn put_catalogue<const N: usize>(
    text: &mut Text<N>,
    h: Summary,
    programs: &[u64],
    functions: &[u64],
    maps: &[u64],
    bytes: &[u8],
)
    requires { (N < 2 ^ 62) × RowsFit h programs.now functions.now maps.now }
    ensures { text.new ≡ pushed N text.old (flat_text h programs.now functions.now maps.now bytes.now) }
{
    put_top(text, bytes, h.license, h.version);
    put_rows::<Programs, N>(text, bytes, programs, h.programs);
    put_rows::<Functions, N>(text, bytes, functions, h.functions);
    put_rows::<Maps, N>(text, bytes, maps, h.maps);
}

pub fn push_refusal<const N: usize>(text: &mut Text<N>, r: Refusal)
    ensures { text.new ≡ pushed N text.old (refusal_text r) }
{
    text.push(b"refused");
    put_number(text, u64::from(r.number));
    put_number(text, u64::from(r.section.0));
    put_number(text, u64::from(r.symbol.0));
    text.push(b"\n");
}

// The text of an answer and of the tables that came with it; functions are seven numbers each.
pub fn push_answer<const N: usize>(
    text: &mut Text<N>,
    answer: Result<Summary, Refusal>,
    programs: &[u64],
    functions: &[u64],
    maps: &[u64],
    bytes: &[u8],
)
    requires { (N < 2 ^ 62) × AnswerFits answer programs.now functions.now maps.now }
    ensures { text.new ≡ pushed N text.old (flat_answer answer programs.now functions.now maps.now bytes.now) }
{
    match answer {
        Ok(h) => put_catalogue(text, h, programs, functions, maps, bytes),
        Err(r) => push_refusal(text, r),
    }
}
