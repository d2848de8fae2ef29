// A file that was checked is opened: its names and relocations are indexed, and number 3.
#![tactic(auto)]

ghost use Rattle.std.specs.Prelude.{◌≡◌, ◌+◌, ◌*◌, ◌≤◌, length};
ghost use Rattle.model.specs.Deposit.{has_btf};
ghost use Rattle.records.specs.Of.{of};
ghost use Rattle.object.specs.View.{section_in, object_in};
ghost use Rattle.elf_layout.specs.Layout.{checked_file};
ghost use Rattle.elf.specs.Opened.{layout_length, index_length, FileOpened, Passes};
ghost use Rattle.elf.specs.Index.{relocation_part};
ghost use Rattle.elf.specs.Asked.{NamesAsk, NamesTold};
ghost use Rattle.elf.specs.Told.{IndexTold};
ghost use Rattle.elf.specs.Btf.{named_btf};

use elf_header::{Headers, Sections};
use elf_layout::Layout;
use elf_names::{NamedRecords, StringTable, name_lengths};
use elf_relocations::place_relocations;
use model::{Endianness, Refusal};
use names::same;
use object_view::{View, without_place};
use records::{Cursor, Records};

// How many bytes a section header and a symbol have.
const HEADER_SIZE: usize = 64;

const SYMBOL_SIZE: usize = 24;

#[tactic(auto, unfolding(object::specs::View::section_from))]
fn is_btf(records: Records, i: u32) -> bool
    ensures { result ≡ named_btf (of section_in records.entry i) }
{
    same(records.name(records.section_name(i)), b".BTF")
}

// Tells whether a section is named `.BTF`.
#[tactic(auto, using(crate::proofs::Rules::walk))]
fn has_btf(records: Records) -> bool
    ensures { result ≡ has_btf (of object_in records.entry) }
{
    let mut c = Cursor::new(records.view.sections);
    // A search over an opened object's sections goes by the cursor, the form that the design names for it: each step is a value.
    while let Some((i, next)) = c.next() {
        if is_btf(records, i) {
            return true;
        }
        c = next;
    }
    false
}

// How many numbers the index of a file has.
pub fn index_length(checked: Result<Layout, Refusal>) -> usize
    ensures { result ≡ index_length checked }
{
    match checked {
        Err(_) => 0,
        Ok(l) => {
            3 * l.view.sections as usize + l.view.symbols as usize + l.view.relocations as usize
        }
    }
}

// ---- the index

// Stores the lengths of the names of records of one width, whose names lie from `start` up to `end`.
fn index_names(
    d: &[u8],
    order: Endianness,
    at: u32,
    width: usize,
    start: u32,
    end: u32,
    t: &mut [u32],
) -> Result<(), Refusal>
    requires { NamesAsk d.now at width start end (length t.old) }
    ensures { NamesTold order d.now at width start end (length t.old) t.new result }
{
    let names = StringTable {
        bytes: d,
        start: start as usize,
        end: end as usize,
    };
    let records = NamedRecords {
        order,
        at: at as usize,
        width,
        names,
    };
    if name_lengths(records, t) {
        Ok(())
    } else {
        Err(without_place(26))
    }
}

// Where the relocations of each section lie.
fn index_relocations(d: &[u8], l: Layout, t: &mut [u32])
    requires { Passes d.now l × (length t.old ≡ 2 * l.view.sections + l.view.relocations) }
    ensures { t.new ≡ relocation_part d.now }
{
    let headers = Headers {
        order: l.view.order,
        first: l.view.at.sections as usize,
        sections: l.view.sections,
    };
    place_relocations(Sections { bytes: d, headers }, l.table, t);
}

// All of the index, from the front of t on.
fn index(d: &[u8], l: Layout, t: &mut [u32]) -> Result<(), Refusal>
    requires { Passes d.now l × (layout_length l ≤ length t.old) }
    ensures { IndexTold d.now t.new result }
{
    let v = l.view;
    let sections = v.sections as usize;
    let (section_names, rest) = t.split_at_mut(sections);
    let (symbol_names, rest) = rest.split_at_mut(v.symbols as usize);
    index_names(
        d,
        v.order,
        v.at.sections,
        HEADER_SIZE,
        v.strings.sections,
        l.ends.sections,
        section_names,
    )?;
    index_names(
        d,
        v.order,
        v.at.symbols,
        SYMBOL_SIZE,
        v.strings.symbols,
        l.ends.symbols,
        symbol_names,
    )?;
    index_relocations(d, l, &mut rest[..2 * sections + v.relocations as usize]);
    Ok(())
}

// Opens a file that was checked, with its index in t.
pub fn open(d: &[u8], checked: Result<Layout, Refusal>, t: &mut [u32]) -> Result<View, Refusal>
    requires { (checked ≡ checked_file d.now) × (index_length checked ≤ length t.old) }
    ensures { FileOpened d.now t.new result }
{
    let l = checked?;
    index(d, l, t)?;
    let records = Records {
        bytes: d,
        index: t,
        view: l.view,
    };
    if has_btf(records) {
        return Err(without_place(3));
    }
    Ok(l.view)
}
