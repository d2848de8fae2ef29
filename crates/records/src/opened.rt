// An opened object's records, which are read by number where they lie.
ghost use Rattle.records.specs.Readable.{Readable};

use object_view::View;

// The bytes that were given, the index that was made at opening, empty for a deposit, and how the records lie in them.
#[derive(Clone, Copy)]
pub struct Records<'a> {
    pub bytes: &'a [u8],
    pub index: &'a [u32],
    pub view: View,
}

// Records that lie inside the bytes, in order of their indexes.
#[derive(Clone, Copy)]
pub struct Object<'a> {
    pub records: Records<'a>,
    ghost readable: { Readable records.bytes.now records.index.now records.view },
}
