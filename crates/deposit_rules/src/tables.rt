// The tables of a deposit, which lie inside it.
ghost use Rattle.std.specs.Prelude.{◌≤◌, length};
ghost use Rattle.model.specs.Deposit.{end_of};
ghost use Rattle.stream.specs.Stream.{place};
ghost use Rattle.deposit_rules.specs.Rules.{Clean};

use records::Deposit;

// A deposit, and whether each byte of the table of names is known to be one that may stand in a name: then no name has
// to be walked by itself.
#[derive(Clone, Copy)]
pub struct Tables<'a> {
    pub deposit: Deposit<'a>,
    pub clean: bool,
    ghost placed: { place 4 (end_of deposit.head) ≤ length deposit.bytes.now },
    ghost known: { Clean deposit.bytes.now deposit.head clean },
}
