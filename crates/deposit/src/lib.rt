// The call that opens a deposit, or says why it goes back: numbers 1 to 3.
#![tactic(auto)]

ghost use Rattle.std.specs.Prelude.{◌≡◌};
ghost use Rattle.deposit.specs.Open.{checked_stream};
ghost use Rattle.deposit.specs.Opened.{Opened};

use deposit_frame::frame_ok;
use deposit_rules::{RecordFault, Tables, head_ok, relocations_ok, rest_ok};
use model::Refusal;
use object_view::without_place;
use records::{Deposit, Object, Records, deposit_view, end_of};

#[tactic(auto, using(std::proofs::lemmas::Bool::Decides::nat_tests), unfolding(crate::specs::Open::checked_stream, crate::specs::Open::stream_ok_at, deposit_rules::specs::Rules::records_ok_at, deposit_rules::specs::Checked::checked_sections))]
fn check_stream(deposit: Deposit) -> Result<(), RecordFault>
    ensures { result ≡ checked_stream deposit.entry.bytes.now deposit.entry.head }
{
    // No block is missing, and none is left over.
    let end = end_of(deposit.head);
    let len = deposit.bytes.len() / 512 * 508;
    if !head_ok(deposit.head) || end > len || len >= end + 508 || !rest_ok(deposit) {
        return Err(RecordFault::Broken);
    }
    let tables = Tables::new(deposit);
    if !tables.symbols_ok() || !relocations_ok(deposit) {
        return Err(RecordFault::Broken);
    }
    tables.check_sections()
}

pub fn open(d: &[u8]) -> Result<Object<'_>, Refusal>
    ensures { Opened d.now result }
{
    if !frame_ok(d) {
        return Err(without_place(1));
    }
    let deposit = Deposit::new(d);
    match check_stream(deposit) {
        Ok(()) => {
            let records = Records {
                bytes: d,
                index: &[],
                view: deposit_view(deposit.head),
            };
            Ok(Object { records })
        }
        Err(RecordFault::Broken) => Err(without_place(2)),
        Err(RecordFault::Btf) => Err(without_place(3)),
    }
}
