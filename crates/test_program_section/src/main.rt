// Reads names, one a line, and writes each with the number of its variant and its two values, or with 8 where it is unknown.
#![tactic(auto)]

ghost use Rattle.std.specs.Prelude.{◌≤◌, length};

use input::read_full;
use model::{CgroupSkbAttachType, ProgramSection, ProgramSectionError};
use std::io;
use stream::{Span, Stream};

fn cgroup_skb_number(attach_type: Option<CgroupSkbAttachType>) -> u8 {
    match attach_type {
        None => 0,
        Some(CgroupSkbAttachType::Ingress) => 1,
        Some(CgroupSkbAttachType::Egress) => 2,
    }
}

// The number of a program's variant, and its two values.
fn numbers(p: ProgramSection) -> (u8, u8, u8) {
    match p {
        ProgramSection::KRetProbe => (0, 0, 0),
        ProgramSection::KProbe => (1, 0, 0),
        ProgramSection::UProbe { sleepable, multi } => (2, u8::from(sleepable), u8::from(multi)),
        ProgramSection::URetProbe { sleepable, multi } => (3, u8::from(sleepable), u8::from(multi)),
        ProgramSection::TracePoint => (4, 0, 0),
        ProgramSection::SocketFilter => (5, 0, 0),
        ProgramSection::Xdp { frags, attach_type } => (6, u8::from(frags), attach_type as u8),
        ProgramSection::SkMsg => (7, 0, 0),
        ProgramSection::SkSkbStream { kind } => (8, kind as u8, 0),
        ProgramSection::SockOps => (9, 0, 0),
        ProgramSection::SchedClassifier => (10, 0, 0),
        ProgramSection::CgroupSkb { attach_type } => (11, cgroup_skb_number(attach_type), 0),
        ProgramSection::CgroupSockAddr { attach_type } => (12, attach_type as u8, 0),
        ProgramSection::CgroupSysctl => (13, 0, 0),
        ProgramSection::CgroupSockopt { attach_type } => (14, attach_type as u8, 0),
        ProgramSection::LircMode2 => (15, 0, 0),
        ProgramSection::PerfEvent => (16, 0, 0),
        ProgramSection::RawTracePoint => (17, 0, 0),
        ProgramSection::Lsm { sleepable } => (18, u8::from(sleepable), 0),
        ProgramSection::LsmCgroup => (19, 0, 0),
        ProgramSection::BtfTracePoint => (20, 0, 0),
        ProgramSection::FEntry { sleepable } => (21, u8::from(sleepable), 0),
        ProgramSection::FExit { sleepable } => (22, u8::from(sleepable), 0),
        ProgramSection::FlowDissector => (23, 0, 0),
        ProgramSection::Extension => (24, 0, 0),
        ProgramSection::SkLookup => (25, 0, 0),
        ProgramSection::SkReuseport { attach_type } => (26, attach_type as u8, 0),
        ProgramSection::CgroupSock { attach_type } => (27, attach_type as u8, 0),
        ProgramSection::CgroupDevice => (28, 0, 0),
        ProgramSection::Iter { sleepable } => (29, u8::from(sleepable), 0),
    }
}

fn put_line(rt: &impl Print, text: &[u8], name: Span) -> io::Result<()> {
    rt.write_all(text)?;
    match program_section::from_str(name) {
        Ok(p) => {
            let (number, first, second) = numbers(p);
            println!(rt; " {number} {first} {second}")
        }
        Err(ProgramSectionError::InvalidProgramSection) => println!(rt; " 8"),
    }
}

// Each name is read where it lies among all, as a load reads it among an object's names.
fn run(rt: &impl Print, names: &[u8]) -> io::Result<()>
    requires { length names.now ≤ 65536 }
{
    let stream = Stream {
        bytes: names,
        gap: 0,
    };
    let mut at: usize = 0;
    // A line is as wide as its name, so no range walks the names.
    while at < names.len() {
        let rest = &names[at..];
        let n = rest.iter().position(|b| *b == b'\n').unwrap_or(rest.len());
        put_line(rt, &rest[..n], stream.span(at, n))?;
        at += n + 1;
    }
    Ok(())
}

fn main(rt: HostRuntime) -> io::Result<()> {
    let mut d = [0u8; 65536];
    let len = read_full(&mut rt.reader(), &mut d)?;
    run(&rt, &d[..len])
}
