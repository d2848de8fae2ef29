// The seven words of a map, from its record or for a data section.
#![tactic(auto)]

ghost use Rattle.std.specs.Prelude.{◌≡◌, ◌*◌, ◌<◌, ◌≤◌, get_or};
ghost use Rattle.model.specs.Bytes.{u32 as u32_at};
ghost use Rattle.model.specs.Contents.{words_of, invalid_map_definition, data_words};
ghost use Rattle.stream.specs.Spans.{bytes_of};

use model::{BpfMapDef, EbpfSectionKind};
use stream::Span;

const MINIMUM_MAP_SIZE: u64 = 20;

const BPF_MAP_TYPE_ARRAY: u32 = 2;

const BPF_F_RDONLY_PROG: u32 = 128;

// Byte k of a record, 0 past its end.
#[tactic(auto, using(crate::proofs::Record::byte, crate::proofs::Record::past))]
fn record_byte(bytes: Span, k: usize) -> u8
    ensures { result ≡ get_or (bytes_of bytes.entry) k 0 }
{
    if k < bytes.len {
        bytes.stream.byte_at(bytes.at + k)
    } else {
        0
    }
}

#[tactic(auto, using(crate::proofs::Record::four))]
fn word(bytes: Span, k: usize) -> u32
    requires { k < 7 }
    ensures { result ≡ u32_at (bytes_of bytes.entry) (k * 4) }
{
    let p = k * 4;
    u32::from_le_bytes([
        record_byte(bytes, p),
        record_byte(bytes, p + 1),
        record_byte(bytes, p + 2),
        record_byte(bytes, p + 3),
    ])
}

// The words of a legacy map, from its record.
#[tactic(auto, using(crate::proofs::Record::table))]
pub fn parse_map_def(bytes: Span) -> BpfMapDef
    ensures { result ≡ words_of (bytes_of bytes.entry) }
{
    let mut words = [0u32; 7];
    for k in 0..7 {
        words[k] = word(bytes, k);
    }
    BpfMapDef { words }
}

#[tactic(auto, unfolding(model::specs::Contents::invalid_map_definition))]
pub fn invalid_map_definition(size: u64, def: BpfMapDef) -> bool
    ensures { result ≡ invalid_map_definition size def }
{
    size < MINIMUM_MAP_SIZE || 1 < def.words[6]
}

#[tactic(auto, unfolding(model::specs::Contents::data_words))]
pub fn parse_data_map_section(kind: EbpfSectionKind, size: u64) -> BpfMapDef
    requires { size ≤ 16777216 }
    ensures { result ≡ data_words kind size }
{
    let flags = match kind {
        EbpfSectionKind::Rodata => BPF_F_RDONLY_PROG,
        _ => 0,
    };
    BpfMapDef {
        words: [BPF_MAP_TYPE_ARRAY, 4, size as u32, 1, flags, 0, 0],
    }
}
