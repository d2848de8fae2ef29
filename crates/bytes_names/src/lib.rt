// The bytes of a lent catalogue: copies of runs of the stream, and the names of records.
#![tactic(auto)]

ghost use Rattle.std.specs.Prelude.{◌≡◌, ◌++◌, ◌+◌, ◌^◌, ◌<◌, ◌≤◌, length, drop};
ghost use Rattle.stream.specs.Stream.{place as place_of};
ghost use Rattle.stream.specs.Spans.{bytes_of};
ghost use Rattle.bytes_names.specs.Pieces.{extent_of, piece_of, PieceInside};
ghost use Rattle.records.specs.Of.{of};

use model::Extent;
use records::Records;
use stream::Span;

// Which name a number stands for: that of a section, of a symbol, or of a map.
#[derive(Clone, Copy)]
pub enum Piece {
    SectionName,
    SymbolName,
    MapName,
}

// The bytes of a span into out, a block at a time.
#[tactic(auto, unfolding(stream::specs::Stream::bytes_at))]
pub fn copy_span(span: Span, out: &mut [u8])
    requires { (place_of span.stream.gap (span.at + span.len) ≤ length span.stream.bytes.now) × (length out.old ≡ span.len) }
    ensures { out.new ≡ bytes_of span.entry }
{
    let mut run = span.stream.run(span.at);
    let mut done = 0;
    // A turn is as wide as its block allows, so no range counts the turns.
    while done < out.len() {
        let m = run.room.min(out.len() - done);
        let (from, to) = (run.at, run.at + m);
        lists::copy(&mut out[done..done + m], &span.stream.bytes[from..to]);
        run = span.stream.skip(run, m);
        done += m;
    }
}

// The range of the name that number j stands for.
#[tactic(auto, unfolding(crate::specs::Pieces::extent_of))]
pub fn extent(records: Records, which: Piece, j: u32) -> Extent
    ensures { result ≡ of (extent_of which) records.entry j }
{
    match which {
        Piece::SectionName => records.section_name(j),
        Piece::SymbolName => records.symbol_name(j),
        Piece::MapName => records.map_name(j),
    }
}

// How many bytes that name has.
#[tactic(auto, using(crate::specs::Pieces::piece_length))]
pub fn name_length(records: Records, which: Piece, j: u32) -> usize
    ensures { (result ≡ length (of (piece_of which) records.entry j)) × (result < 2 ^ 32) }
{
    let e = extent(records, which, j);
    e.length as usize
}

// That name at the front of out; how many bytes it has.
#[tactic(auto, using(crate::specs::Pieces::named))]
pub fn put_name(records: Records, which: Piece, j: u32, out: &mut [u8]) -> usize
    requires { of (PieceInside which) records j × (length (of (piece_of which) records j) ≤ length out.old) }
    ensures { (result ≡ length (of (piece_of which) records.entry j))
        × (out.new ≡ of (piece_of which) records.entry j ++ drop result out.old) }
{
    let name = records.name(extent(records, which, j));
    copy_span(name, &mut out[..name.len]);
    name.len
}
