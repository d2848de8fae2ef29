// An object that numbers 4 to 17 don't refuse, and the record numbers of its tables.
ghost use Rattle.std.specs.Prelude.{◌≡◌, None};
ghost use Rattle.model.specs.Refusals.{object_refusal};
ghost use Rattle.object.specs.View.{object_in};
ghost use Rattle.records.specs.Of.{of};
ghost use Rattle.bytes_layout.specs.Held.{Held};

use model::Extent;
use records::Object;

#[derive(Clone, Copy)]
pub struct Accepted<'a> {
    pub object: Object<'a>,
    pub sections: &'a [u32],
    pub programs: &'a [u32],
    pub functions: &'a [u32],
    pub maps: &'a [u32],
    pub license: Option<Extent>,
    pub version: Option<u32>,
    ghost accepted: { object_refusal (of object_in object.records) ≡ None },
    ghost held: { of Held object.records sections.now programs.now functions.now maps.now license version },
}
