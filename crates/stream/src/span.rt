// A stream as it is lent, and a range of its bytes.
ghost use Rattle.std.specs.Prelude.{◌+◌, ◌^◌, ◌<◌, ◌≤◌};

// What was lent, and how many bytes stand behind each 508 of the stream: 4 in a deposit, none in a plain file.
#[derive(Clone, Copy)]
pub struct Stream<'a> {
    pub bytes: &'a [u8],
    pub gap: usize,
    ghost narrow: { gap ≤ 4 },
}

// The `len` bytes of a stream from `at` on, zeros past its end.
#[derive(Clone, Copy)]
pub struct Span<'a> {
    pub stream: Stream<'a>,
    pub at: usize,
    pub len: usize,
    ghost near: { at + len < 2 ^ 63 },
}
