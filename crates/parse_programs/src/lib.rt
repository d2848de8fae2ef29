// Program sections: what refuses one, and the numbers of the programs that it lists.
#![tactic(auto)]

ghost use Rattle.std.specs.Prelude.{◌≡◌, ◌++◌, map, ◌≤◌, length, drop};
ghost use Rattle.model.specs.Bytes.{first_in};
ghost use Rattle.model.specs.Refusals.{program_symbol_refusal, program_refusal};
ghost use Rattle.records.specs.Of.{of};
ghost use Rattle.object.specs.Checked.{checked_of};
ghost use Rattle.object.specs.Group.{members_in, programs_among, fault_of};
ghost use Rattle.object.specs.View.{section_from, symbol_in, object_in};
ghost use Rattle.parse_programs.specs.Fault.{program_fault};

use model::{Refusal, SectionRecord, SymbolRecord};
use records::Records;

// What refuses a program's symbol: 10 or 15. No sum is made, so none can wrap.
#[tactic(auto, using(std::proofs::lemmas::Bool::Decides::nat_tests), unfolding(crate::specs::Fault::program_fault))]
fn parse_program(s: SectionRecord, y: SymbolRecord) -> Result<(), Refusal>
    ensures { result ≡ checked_of (fault_of (program_fault s y) s.index y.index) }
{
    let length = u64::from(s.bytes.length);
    let start = object::program_offset(s, y);
    if y.address < s.address || length < start || length - start < y.size {
        return object::of_symbol(10, s, y);
    }
    if insn::invalid_program_code(y.size) {
        return object::of_symbol(15, s, y);
    }
    Ok(())
}

// The first refusal of a program among the symbols of a group.
#[tactic(auto, using(crate::proofs::Fault::symbols))]
pub fn program_symbols(records: Records, s: SectionRecord, group: &[u32]) -> Result<(), Refusal>
    ensures { result
        ≡ checked_of
        (first_in (program_symbol_refusal (of section_from records.entry s))
        (map (of symbol_in records.entry) (of programs_among records.entry group.now))) }
{
    for j in group {
        let y = records.symbol(*j);
        if object::is_program(y) {
            parse_program(s, y)?;
        }
    }
    Ok(())
}

// What refuses a program section; the group is that of its symbols.
#[tactic(auto, using(crate::specs::Refused::refused_by_group))]
pub fn program_refusal(records: Records, s: SectionRecord, group: &[u32]) -> Result<(), Refusal>
    requires { group.now ≡ of members_in records s }
    ensures { result ≡ checked_of (program_refusal (of object_in records.entry) (of section_from records.entry s)) }
{
    if program_section::from_str(records.name(s.name)).is_err() {
        return object::of_section(8, s);
    }
    if group.is_empty() {
        return object::of_section(9, s);
    }
    program_symbols(records, s, group)
}

// The numbers of a group's programs at the front of out; how many there are.
#[tactic(auto, using(crate::proofs::Programs::programs_none))]
pub fn program_numbers(records: Records, group: &[u32], out: &mut [u32]) -> usize
    requires { length group.now ≤ length out.old }
    ensures { (result ≡ length (of programs_among records.entry group.now))
        × (out.new ≡ of programs_among records.entry group.now ++ drop result out.old) }
{
    let mut n = 0;
    for j in group {
        if object::is_program(records.symbol(*j)) {
            out[n] = *j;
            n += 1;
        }
    }
    n
}
