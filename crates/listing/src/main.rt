// Reads a deposit from standard input and writes its catalogue, or why it goes back.
#![tactic(auto)]

ghost use Rattle.std.specs.Prelude.{refl};
ghost use Rattle.model.specs.Listing.{listing_of};
ghost use Rattle.guarantees.specs.WordsOfDemand3.{Input};
ghost use Rattle.listing_laws.specs.Text.{deposit-text};

use listed::{Listed, run};
use load_numbers::load_flat;
use model::{Refusal, Summary};
use std::io;

struct Deposit;

impl Listed for Deposit {
    const MOST: usize = 65536;

    const TOO_LONG: u32 = 1;

    ghost MOST = { 65536 };

    ghost TOO_LONG = { 1 };

    ghost input = { Input.deposit };

    ghost text = { listing_of };

    ghost bytes = { λ d. refl };

    ghost is = { deposit-text };

    fn load(
        d: &[u8],
        sections: &mut [u64],
        programs: &mut [u64],
        functions: &mut [u64],
        maps: &mut [u64],
        relocations: &mut [u64],
        bytes: &mut [u8],
    ) -> Result<Summary, Refusal> {
        load_flat(
            d,
            &[],
            &[],
            false,
            sections,
            programs,
            functions,
            maps,
            relocations,
            bytes,
        )
    }
}

// The room that is lent is what docs/CATALOGUE.md states, and one byte more than a deposit may have.
fn main(rt: HostRuntime) -> io::Result<()> {
    run::<Deposit, 65537, 5416, 11368, 11368, 43848, 16384, 524288, 1048576>(&rt)
}
