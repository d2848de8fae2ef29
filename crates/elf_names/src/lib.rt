// The lengths of the names that records of an ELF file bear. For long names a memo keeps, at each 1,024th byte of the string table, where the letters stop.
#![tactic(auto)]

ghost use Rattle.std.specs.Prelude.{◌≡◌, true, ◌+◌, ◌*◌, ◌≤◌, min, length, drop};
ghost use Rattle.std.proofs.Math.Seq.{slice};
ghost use Rattle.elf_laws.specs.Names.{letter};
ghost use Rattle.elf_names.specs.Lengths.{string_table, strings_ok, string_lengths};
ghost use Rattle.elf_names.specs.Stop.{stop};
ghost use Rattle.elf_names.specs.Told.{Stopped, MemoHolds, Filled, MeasureTold, SurveyTold};

use elf_records::FileBytes;
use model::Endianness;

// The length of the longest name.
const LONGEST: usize = 65535;

// How far apart the places lie that a memo knows.
const STRIDE: usize = 1024;

// Why a name has no length: it breaks a rule, or it is long and there is no memo.
#[derive(Clone, Copy)]
enum NameFault {
    Broken,
    Long,
}

// The names of a file: its bytes from `start` up to `end`.
#[derive(Clone, Copy)]
pub struct StringTable<'a> {
    pub bytes: &'a [u8],
    pub start: usize,
    pub end: usize,
    ghost rises: { start ≤ end },
    ghost inside: { end ≤ length bytes.now },
    ghost small: { length bytes.now ≤ 16777216 },
}

// Letters are the bytes from 1 to 127.
fn is_letter(b: u8) -> bool
    ensures { result ≡ letter b }
{
    matches!(b, 1..=127)
}

impl<'a> StringTable<'a> {
    // Finds where the letters from a place on stop; it looks at no more than a stride.
    #[tactic(auto, using(crate::proofs::Rules::stops))]
    fn stride(self, place: usize) -> usize
        requires { place ≤ self.end }
        ensures { result ≡ min (place + 1024) (stop self.entry.bytes.now self.entry.end place) }
    {
        let end = self.end.min(place + STRIDE);
        for k in place..end {
            if !is_letter(self.bytes[k]) {
                return k;
            }
        }
        end
    }

    // Tells the length of a name by the places where it begins and where its letters stop.
    #[tactic(auto, using(crate::proofs::Rules::names))]
    fn judge(self, name: usize, past: usize) -> Result<u32, NameFault>
        requires { (name ≤ self.end) × Stopped self.bytes.now self.end name past }
        ensures { MeasureTold 1 (slice name self.entry.end self.entry.bytes.now) result }
    {
        if past - name > LONGEST || past >= self.end || self.bytes[past] != 0 {
            return Err(NameFault::Broken);
        }
        Ok((past - name) as u32)
    }

    // Finds where a name of a stride or more stops, or a place where it is too long: it goes by strides, up to one that the memo knows.
    #[tactic(auto, using(crate::proofs::Rules::stops))]
    fn find_stop(self, name: usize, memo: &[u32]) -> usize
        requires { (self.start ≤ name)
            × (name ≤ self.end)
            × (name + 1024 ≤ stop self.bytes.now self.end name)
            × MemoHolds self.bytes.now self.start self.end memo.now }
        ensures { Stopped self.entry.bytes.now self.entry.end name result }
    {
        let mut j = (name - self.start) / STRIDE + 1;
        // Only what a stride finds ends this loop: a `for` would name an end that is never reached.
        loop {
            let known = memo.get(j).copied().unwrap_or(0) as usize;
            if known != 0 {
                return known - 1;
            }
            let place = self.start + STRIDE * j;
            let past = self.stride(place);
            if past < place + STRIDE || past - name > LONGEST {
                return past;
            }
            j += 1;
        }
    }

    // Finds the stop, and fills in what was passed on the way.
    fn learn_stop(self, name: usize, memo: &mut [u32]) -> usize
        requires { (self.start ≤ name)
            × (name ≤ self.end)
            × (name + 1024 ≤ stop self.bytes.now self.end name)
            × MemoHolds self.bytes.now self.start self.end memo.old }
        ensures { Stopped self.entry.bytes.now self.entry.end name result
            × MemoHolds self.entry.bytes.now self.entry.start self.entry.end memo.new }
    {
        let past = self.find_stop(name, memo);
        if past - name > LONGEST {
            return past;
        }
        fill(
            memo,
            (name - self.start) / STRIDE + 1,
            (past - self.start) / STRIDE + 1,
            (past + 1) as u32,
        );
        past
    }

    // Measures the name at an offset. A long one is followed where there is a memo.
    #[tactic(auto, using(crate::proofs::Rules::stops))]
    fn measure(self, offset: usize, memo: &mut [u32]) -> Result<u32, NameFault>
        requires { MemoHolds self.bytes.now self.start self.end memo.old }
        ensures { let s = self.entry in
            MeasureTold (length memo.old) (drop offset (string_table s.bytes.now s.start s.end)) result
            × MemoHolds s.bytes.now s.start s.end memo.new }
    {
        if self.end - self.start <= offset {
            return Err(NameFault::Broken);
        }
        let name = self.start + offset;
        let near = self.stride(name);
        if near < name + STRIDE {
            return self.judge(name, near);
        }
        if memo.is_empty() {
            return Err(NameFault::Long);
        }
        let far = self.learn_stop(name, memo);
        self.judge(name, far)
    }
}

// Stores v from one place of the memo up to another, or up to the first number that is known.
fn fill(memo: &mut [u32], from: usize, to: usize, v: u32)
    ensures { Filled from to v memo.old memo.new }
{
    for j in from..to.min(memo.len()) {
        if memo[j] != 0 {
            return;
        }
        memo[j] = v;
    }
}

// Records of `width` bytes, from `at` on in the file of their names. Each has its name's offset in its first four bytes.
#[derive(Clone, Copy)]
pub struct NamedRecords<'a> {
    pub order: Endianness,
    pub at: usize,
    pub width: usize,
    pub names: StringTable<'a>,
    ghost wide: { 4 ≤ width },
}

impl<'a> NamedRecords<'a> {
    // Stores the lengths of the names of all records, up to one that is not fine.
    fn survey(self, lens: &mut [u32], memo: &mut [u32]) -> Result<(), NameFault>
        requires { (self.at + self.width * length lens.old ≤ length self.names.bytes.now)
            × MemoHolds self.names.bytes.now self.names.start self.names.end memo.old }
        ensures { let r = self.entry in
            let s = r.names in
            SurveyTold (length memo.old)
            (strings_ok r.order s.bytes.now r.at r.width s.start s.end (length lens.old))
            (string_lengths r.order s.bytes.now r.at r.width s.start s.end (length lens.old))
            lens.new result }
    {
        for (i, length) in lens.iter_mut().enumerate() {
            let file = FileBytes {
                bytes: self.names.bytes,
                order: self.order,
            };
            let offset = file.four(self.at + self.width * i);
            *length = self.names.measure(offset as usize, memo)?;
        }
        Ok(())
    }

    // Does so with a memo, a number for each 1,024th byte of the longest file. No caller takes it in, so that the array has a frame of its own.
    // 0 stands for unknown: options would take twice the memory to clear.
    #[inline(never)]
    fn long_lengths(self, lens: &mut [u32]) -> bool
        requires { self.at + self.width * length lens.old ≤ length self.names.bytes.now }
        ensures { let r = self.entry in
            let s = r.names in
            (result ≡ strings_ok r.order s.bytes.now r.at r.width s.start s.end (length lens.old))
            × (result ≡ true → lens.new ≡ string_lengths r.order s.bytes.now r.at r.width s.start s.end (length lens.old)) }
    {
        let mut memo = [0u32; 16384];
        self.survey(lens, &mut memo).is_ok()
    }
}

// Stores the length of each record's name; false where a name breaks a rule.
pub fn name_lengths(records: NamedRecords, lens: &mut [u32]) -> bool
    requires { records.at + records.width * length lens.old ≤ length records.names.bytes.now }
    ensures { let r = records.entry in
        let s = r.names in
        (result ≡ strings_ok r.order s.bytes.now r.at r.width s.start s.end (length lens.old))
        × (result ≡ true → lens.new ≡ string_lengths r.order s.bytes.now r.at r.width s.start s.end (length lens.old)) }
{
    match records.survey(lens, &mut []) {
        Ok(()) => true,
        Err(NameFault::Broken) => false,
        Err(NameFault::Long) => records.long_lengths(lens),
    }
}
