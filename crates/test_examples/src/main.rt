// Document 01, 'From the register's drawer': the examples that are run. A line has the number expected and the number got, 0 where nothing is refused.
#![tactic(auto)]

ghost use Rattle.std.specs.Prelude.{◌^◌, ◌<◌};

use model::{
    Endianness, Extent, Head, LicenseError, ProgramSection, ProgramSectionError, SectionIndex,
    SectionRecord, SymbolIndex, SymbolRecord, VersionError,
};
use records::{Records, deposit_view};
use std::io;
use stream::{Span, Stream};

fn line(rt: &impl Print, name: &str, expected: u64, got: u64) -> io::Result<()> {
    println!(rt; "{name} expected {expected} got {got}")
}

// The first n bytes of those that lie together.
fn first<'a>(bytes: &'a [u8], n: usize) -> Span<'a>
    requires { n < 2 ^ 63 }
{
    Stream { bytes, gap: 0 }.span(0, n)
}

fn license_number(p: Result<u64, LicenseError>) -> u64 {
    match p {
        Ok(_) => 0,
        Err(LicenseError::InvalidLicense) => 5,
        Err(LicenseError::MissingLicenseNullTerminator) => 6,
    }
}

fn version_number(p: Result<Option<u32>, VersionError>) -> u64 {
    match p {
        Ok(_) => 0,
        Err(VersionError::InvalidKernelVersion) => 7,
    }
}

fn section_number(p: Result<ProgramSection, ProgramSectionError>) -> u64 {
    match p {
        Ok(_) => 0,
        Err(ProgramSectionError::InvalidProgramSection) => 8,
    }
}

fn licenses(rt: &impl Print) -> io::Result<()> {
    line(
        rt,
        "licence of one zero byte",
        5,
        license_number(license::parse_license(first(b"\0", 1))),
    )?;
    line(
        rt,
        "licence of one byte",
        5,
        license_number(license::parse_license(first(b"a", 1))),
    )?;
    line(
        rt,
        "licence of GPL and zero",
        0,
        license_number(license::parse_license(first(b"GPL\0", 4))),
    )?;
    line(
        rt,
        "licence of GPL",
        6,
        license_number(license::parse_license(first(b"GPL\0", 3))),
    )
}

fn versions(rt: &impl Print) -> io::Result<()> {
    let d = b"\x01\x02\x03\x04\x05";
    line(
        rt,
        "version of 3 bytes",
        7,
        version_number(license::parse_version(first(d, 3), Endianness::Little)),
    )?;
    line(
        rt,
        "version of 4 bytes",
        0,
        version_number(license::parse_version(first(d, 4), Endianness::Little)),
    )?;
    line(
        rt,
        "version of 5 bytes",
        7,
        version_number(license::parse_version(first(d, 5), Endianness::Big)),
    )
}

// 16 where a record of n bytes is refused, else ten times its id and its pinning.
fn record(d: &[u8], n: usize) -> u64
    requires { n < 2 ^ 63 }
{
    let def = map_def::parse_map_def(first(d, n));
    if map_def::invalid_map_definition(n as u64, def) {
        return 16;
    }
    10 * u64::from(def.words[5]) + u64::from(def.words[6])
}

// The sixth word is 3 and the seventh 1; a byte follows. A record of 27 ends before a byte that isn't 0: read with it, the pinning would be refused.
fn records(rt: &impl Print) -> io::Result<()> {
    let d = b"\0\0\0\0\0\0\0\0\0\0\0\0\0\0\0\0\0\0\0\0\x03\0\0\0\x01\0\0\0\xFF";
    let cut = b"\0\0\0\0\0\0\0\0\0\0\0\0\0\0\0\0\0\0\0\0\x03\0\0\0\x01\0\0\xFF";
    line(rt, "record of 19", 16, record(d, 19))?;
    line(rt, "record of 20, id and pinning", 0, record(d, 20))?;
    line(rt, "record of 27, id and pinning", 31, record(cut, 27))?;
    line(rt, "record of 28, id and pinning", 31, record(d, 28))?;
    line(rt, "record of 29, id and pinning", 31, record(d, 29))
}

fn names(rt: &impl Print) -> io::Result<()> {
    line(
        rt,
        "bare cgroup",
        8,
        section_number(program_section::from_str(first(b"cgroup", 6))),
    )?;
    line(
        rt,
        "bare sk_skb",
        8,
        section_number(program_section::from_str(first(b"sk_skb", 6))),
    )?;
    line(
        rt,
        "xdp/",
        8,
        section_number(program_section::from_str(first(b"xdp/", 4))),
    )?;
    line(
        rt,
        "kprobe/a/b",
        0,
        section_number(program_section::from_str(first(b"kprobe/a/b", 10))),
    )
}

// A text of so many bytes.
fn text_section(length: u32) -> SectionRecord {
    let none = Extent { at: 0, length: 0 };
    SectionRecord {
        index: SectionIndex(1),
        mark: 1,
        name: none,
        address: 0,
        size: u64::from(length),
        bytes: Extent { at: 0, length },
        relocations: none,
    }
}

// A symbol of a size at its start.
fn text_symbol(size: u64) -> SymbolRecord {
    SymbolRecord {
        index: SymbolIndex(1),
        section: SectionIndex(1),
        name: Extent { at: 0, length: 0 },
        address: 0,
        size,
        kind: 1,
        definition: 1,
        reserved: 0,
    }
}

// What refuses a symbol of a size in a text of 16 bytes.
fn text_number(size: u64) -> u64 {
    match parse_text::invalid_symbol(text_section(16), text_symbol(size), 0) {
        Ok(()) => 0,
        Err(r) => u64::from(r.number),
    }
}

// How many functions an empty text of an object without symbols gives; 100 where it is refused.
fn empty_text() -> u64 {
    let h = Head {
        order: 0,
        sections: 0,
        symbols: 0,
        relocations: 0,
        names: 0,
        bytes: 0,
        reserved: 0,
    };
    let records = Records {
        bytes: b"",
        index: &[],
        view: deposit_view(h),
    };
    match parse_text::parse_text_section(records, text_section(0), &[], &mut []) {
        Ok(n) => n as u64,
        Err(_) => 100,
    }
}

fn texts(rt: &impl Print) -> io::Result<()> {
    line(rt, "text of 16, size 16", 0, text_number(16))?;
    line(rt, "text of 16, size 12", 15, text_number(12))?;
    line(rt, "text of 16, size 24", 14, text_number(24))?;
    line(rt, "text of 16, size 0", 13, text_number(0))?;
    line(rt, "functions of an empty text", 0, empty_text())
}

// The immediate of a call, of which rewriting is on.
fn immediate(regs: u8) -> u64 {
    let mut call = [0x85, regs, 0, 0, 0x71, 0, 0, 0];
    insn::sanitize_code(&mut call, true);
    u64::from(call[4])
}

fn rewriting(rt: &impl Print) -> io::Result<()> {
    line(rt, "85 00 00 00 71 00 00 00", 4, immediate(0))?;
    line(rt, "85 10 00 00 71 00 00 00", 113, immediate(0x10))
}

fn main(rt: HostRuntime) -> io::Result<()> {
    licenses(&rt)?;
    versions(&rt)?;
    records(&rt)?;
    names(&rt)?;
    texts(&rt)?;
    rewriting(&rt)
}
