// Everything that is lent but the function table: cleared where the object is refused, filled where it is accepted; and the summary.
#![tactic(auto)]

ghost use Rattle.std.specs.Prelude.{◌≡◌, length, replicate};
ghost use Rattle.model.specs.Lent.{bytes_of, image_of, filled};
ghost use Rattle.records.specs.Of.{of};
ghost use Rattle.bytes_layout.specs.Parts.{catalogue};
ghost use Rattle.load_fill.specs.Fills.{Fillable, summary_by};

use bytes_layout::Accepted;
use load_decision::Plan;
use load_image::{fill_bytes, fill_maps, fill_programs, fill_sections};
use model::Summary;
use object_view::View;
use parse_sections::Counts;

pub fn clear(
    sections: &mut [u64],
    programs: &mut [u64],
    maps: &mut [u64],
    relocations: &mut [u64],
    bytes: &mut [u8],
)
    ensures { (sections.new ≡ replicate (length sections.old) 0)
        × (programs.new ≡ replicate (length programs.old) 0)
        × (maps.new ≡ replicate (length maps.old) 0)
        × (relocations.new ≡ replicate (length relocations.old) 0)
        × (bytes.new ≡ replicate (length bytes.old) 0) }
{
    sections.fill(0);
    programs.fill(0);
    maps.fill(0);
    relocations.fill(0);
    bytes.fill(0);
}

pub fn fill(
    accepted: Accepted,
    plan: Plan,
    sections: &mut [u64],
    programs: &mut [u64],
    maps: &mut [u64],
    relocations: &mut [u64],
    bytes: &mut [u8],
)
    requires { of Fillable accepted.object.records plan sections.old programs.old maps.old relocations.old bytes.old }
    ensures { (sections.new ≡ filled 0 (length sections.old) (image_of (of catalogue accepted.entry.object.records)).sections)
        × (programs.new ≡ filled 0 (length programs.old) (image_of (of catalogue accepted.entry.object.records)).programs)
        × (maps.new ≡ filled 0 (length maps.old) (image_of (of catalogue accepted.entry.object.records)).maps)
        × (relocations.new
        ≡ filled 0 (length relocations.old) (image_of (of catalogue accepted.entry.object.records)).relocations)
        × (bytes.new ≡ filled 0 (length bytes.old) (bytes_of (of catalogue accepted.entry.object.records))) }
{
    let places = plan.places;
    let object = accepted.object;
    fill_sections(object.records, accepted.sections, places, sections);
    fill_programs(object, accepted.programs, places, programs);
    fill_maps(object, accepted.maps, places, maps);
    relocations[plan.relocations * 4..].fill(0);
    fill_bytes(accepted, places, bytes);
}

#[tactic(auto, unfolding(crate::specs::Fills::summary_by))]
pub fn summary(v: View, n: Counts, plan: Plan) -> Summary
    ensures { result ≡ summary_by v n plan }
{
    Summary {
        order: v.order,
        version: n.version,
        license: plan.places.sections as u64,
        sections: n.sections as u64,
        programs: n.programs as u64,
        functions: n.functions as u64,
        maps: n.maps as u64,
        relocations: plan.relocations as u64,
        bytes: plan.places.end as u64,
    }
}
