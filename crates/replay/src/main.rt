// Each line of the input is a case, in the form of crates/replay_lines. What it lends is filled with a pattern before the call.
#![tactic(auto)]

ghost use Rattle.std.specs.Prelude.{◌≡◌, ◌≤◌, length, IfOk};

use input::{byte_room, read_full};
use load_elf_numbers::load_flat_elf;
use load_numbers::load_flat;
use model::{Refusal, Summary};
use replay_lines::{Case, read_case, tell};
use std::io;
use std::io::Read;

// What a case lends to be written holds a pattern before the call. The contracts tell the length alone, so no proof of a caller computes on it.
fn patterned_numbers<const N: usize>() -> [u64; N]
    ensures { N ≡ length result }
{
    [0xa5a5a5a5a5a5a5a5; N]
}

fn patterned_bytes<const N: usize>() -> [u8; N]
    ensures { N ≡ length result }
{
    [0xa5; N]
}

// What is loaded is 0 for a deposit, 2 for a file; one more is with rewriting.
fn load(
    d: &[u8],
    entries: &[u64],
    patches: &[u8],
    what: u64,
    sections: &mut [u64],
    programs: &mut [u64],
    functions: &mut [u64],
    maps: &mut [u64],
    relocations: &mut [u64],
    bytes: &mut [u8],
) -> Result<Summary, Refusal> {
    let rewrite = what % 2 == 1;
    if what < 2 {
        load_flat(
            d,
            entries,
            patches,
            rewrite,
            sections,
            programs,
            functions,
            maps,
            relocations,
            bytes,
        )
    } else {
        load_flat_elf(
            d,
            entries,
            patches,
            rewrite,
            sections,
            programs,
            functions,
            maps,
            relocations,
            bytes,
        )
    }
}

fn replay(
    rt: &impl Print,
    name: &[u8],
    d: &[u8],
    entries: &[u64],
    patches: &[u8],
    what: u64,
    sections: &mut [u64],
    programs: &mut [u64],
    functions: &mut [u64],
    maps: &mut [u64],
    relocations: &mut [u64],
    bytes: &mut [u8],
) -> io::Result<()> {
    let answer = load(
        d,
        entries,
        patches,
        what,
        sections,
        programs,
        functions,
        maps,
        relocations,
        bytes,
    );
    tell(
        rt,
        name,
        answer,
        sections,
        programs,
        functions,
        maps,
        relocations,
        bytes,
    )
}

// Lends as much of each as the case says, or all.
fn lend(
    rt: &impl Print,
    name: &[u8],
    d: &[u8],
    entries: &[u64],
    patches: &[u8],
    rest: [u64; 7],
    sections: &mut [u64],
    programs: &mut [u64],
    functions: &mut [u64],
    maps: &mut [u64],
    relocations: &mut [u64],
    bytes: &mut [u8],
) -> io::Result<()> {
    let a = (rest[1] as usize).min(sections.len());
    let b = (rest[2] as usize).min(programs.len());
    let f = (rest[3] as usize).min(functions.len());
    let m = (rest[4] as usize).min(maps.len());
    let r = (rest[5] as usize).min(relocations.len());
    let y = (rest[6] as usize).min(bytes.len());
    replay(
        rt,
        name,
        d,
        entries,
        patches,
        rest[0],
        &mut sections[..a],
        &mut programs[..b],
        &mut functions[..f],
        &mut maps[..m],
        &mut relocations[..r],
        &mut bytes[..y],
    )
}

// What is lent to be written is as large as a case may ask for.
fn run_case(
    rt: &impl Print,
    name: &[u8],
    d: &[u8],
    entries: &[u64],
    patches: &[u8],
    rest: [u64; 7],
) -> io::Result<()> {
    let mut sections = patterned_numbers::<4096>();
    let mut programs = patterned_numbers::<4096>();
    let mut functions = patterned_numbers::<16384>();
    let mut maps = patterned_numbers::<8192>();
    let mut relocations = patterned_numbers::<8192>();
    let mut bytes = patterned_bytes::<131072>();
    lend(
        rt,
        name,
        d,
        entries,
        patches,
        rest,
        &mut sections,
        &mut programs,
        &mut functions,
        &mut maps,
        &mut relocations,
        &mut bytes,
    )
}

// What is lent to be read is a part of what there is room for.
fn run_parts(
    rt: &impl Print,
    case: Case,
    s: &[u8],
    d: &[u8],
    entries: &[u64],
    patches: &[u8],
) -> io::Result<()> {
    let name = case.name.min(s.len());
    let n = case.deposit.min(d.len());
    let e = case.entries.min(entries.len());
    let p = case.patches.min(patches.len());
    let rest = case.rest;
    run_case(rt, &s[..name], &d[..n], &entries[..e], &patches[..p], rest)
}

fn run_line(
    rt: &impl Print,
    s: &[u8],
    d: &mut [u8],
    entries: &mut [u64],
    patches: &mut [u8],
) -> io::Result<()> {
    let case = read_case(s, d, entries, patches);
    run_parts(rt, case, s, d, entries, patches)
}

// Runs the lines that have their end; how long the rest is.
fn run(
    rt: &impl Print,
    text: &[u8],
    d: &mut [u8],
    entries: &mut [u64],
    patches: &mut [u8],
) -> io::Result<usize>
    ensures { IfOk result (λ n. n ≤ length text.now) }
{
    let mut rest = text;
    // A line is as long as its end is far, so no range counts the lines.
    while let Some(n) = rest.iter().position(|c| *c == b'\n') {
        run_line(rt, &rest[..n], d, entries, patches)?;
        rest = &rest[n + 1..];
    }
    Ok(rest.len())
}

// Reads behind the first `kept` bytes; where what was read ends.
fn read_behind(input: &mut impl Read, text: &mut [u8], kept: usize) -> io::Result<usize>
    requires { kept ≤ length text.old }
    ensures { IfOk result (λ end. end ≤ length text.new) }
{
    let n = read_full(input, &mut text[kept..])?;
    Ok(kept + n)
}

// Runs the whole lines of the first `end` bytes; how many bytes are left, at the front.
fn run_part(
    rt: &impl Print,
    text: &mut [u8],
    end: usize,
    d: &mut [u8],
    entries: &mut [u64],
    patches: &mut [u8],
) -> io::Result<usize>
    requires { end ≤ length text.old }
    ensures { IfOk result (λ n. n ≤ length text.new) }
{
    let left = run(rt, &text[..end], d, entries, patches)?;
    text.copy_within(end - left..end, 0);
    Ok(left)
}

// The room is filled at most 64 times. What the input has behind that isn't run, nor what stands from a line on that the room doesn't hold.
fn run_all(
    rt: &(impl Input + Print),
    text: &mut [u8],
    d: &mut [u8],
    entries: &mut [u64],
    patches: &mut [u8],
) -> io::Result<()> {
    let mut input = rt.reader();
    let mut kept: usize = 0;
    for _ in 0..64 {
        let end = read_behind(&mut input, text, kept)?;
        kept = run_part(rt, text, end, d, entries, patches)?;
    }
    Ok(())
}

fn main(rt: HostRuntime) -> io::Result<()> {
    let mut text = byte_room::<524288>();
    let mut d = byte_room::<2097152>();
    let mut entries = [0u64; 1024];
    let mut patches = [0u8; 8192];
    run_all(&rt, &mut text, &mut d, &mut entries, &mut patches)
}
