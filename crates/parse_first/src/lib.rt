// Number 4 by one look at a section's range; the licence and the version: where they stand, and numbers 5 to 7.
#![tactic(auto)]

ghost use Rattle.std.specs.Prelude.{◌≡◌, ◌++◌, ◌+◌, ◌≤◌, length, drop, None};
ghost use Rattle.lists.specs.Tab.{tab};
ghost use Rattle.model.specs.Refusals.{licence_refusal, version_refusal};
ghost use Rattle.model.specs.Contents.{version_of};
ghost use Rattle.records.specs.Of.{of};
ghost use Rattle.object.specs.Checked.{checked_of};
ghost use Rattle.object.specs.View.{section_from, object_in};
ghost use Rattle.parse_first.specs.Named.{with_section, named_in};
ghost use Rattle.parse_first.specs.Targets.{NextOf, next_untargeted, reaches};
ghost use Rattle.parse_first.specs.LicenceVersion.{licence_refused, version_refused, license_at};

use model::{Extent, LicenseError, Refusal, SectionRecord, SymbolIndex, VersionError};
use object_view::is_no_symbol;
use records::{Cursor, Object, Records};

// The first section named `license`, and the first named `version`.
#[derive(Clone, Copy)]
pub struct Named {
    pub license: Option<u32>,
    pub version: Option<u32>,
}

// What was found before section i, and with it.
#[tactic(auto, unfolding(object::specs::View::section_from))]
fn with_section(records: Records, i: u32, found: Named) -> Named
    ensures { result ≡ of with_section records.entry i found }
{
    let name = records.name(records.section_name(i));
    let is_license = names::same(name, b"license");
    let is_version = names::same(name, b"version");
    Named {
        license: found.license.or(is_license.then_some(i)),
        version: found.version.or(is_version.then_some(i)),
    }
}

#[tactic(auto, using(crate::proofs::Rules::walk), unfolding(crate::specs::Named::number_named))]
pub fn find_named(records: Records) -> Named
    ensures { result ≡ of named_in records.entry }
{
    let mut found = Named {
        license: None,
        version: None,
    };
    let mut c = Cursor::new(records.view.sections);
    // The sections of an object are walked by a cursor over their record numbers.
    while let Some((i, next)) = c.next() {
        found = with_section(records, i, found);
        c = next;
    }
    found
}

// For each relocation the nearest one, from it on, that has no symbol as target; their number, if there is none.
#[tactic(auto, using(crate::proofs::Rules::filling))]
pub fn next_untargeted(records: Records, next: &mut [u32])
    requires { records.view.relocations ≤ length next.old }
    ensures { next.new
        ≡ tab (of next_untargeted records.entry) records.entry.view.relocations ++ drop records.entry.view.relocations next.old }
{
    let mut nearest = records.view.relocations;
    for k in (0..records.view.relocations).rev() {
        if is_no_symbol(records.relocation_symbol(k)) {
            nearest = k;
        }
        next[k as usize] = nearest;
    }
}

// Number 4 of a section: whether the nearest such relocation from its first on is one of its own.
#[tactic(auto, using(std::proofs::lemmas::Bool::Decides::nat_tests), unfolding(crate::specs::Targets::reaches))]
pub fn untargeted(s: SectionRecord, next: &[u32]) -> bool
    requires { s.relocations.at + s.relocations.length ≤ length next.now }
    ensures { result ≡ reaches next.now s.relocations }
{
    let first = s.relocations.at as usize;
    let end = first + s.relocations.length as usize;
    first < end && (next[first] as usize) < end
}

// Numbers 4 to 6 of the section that is the licence.
#[tactic(auto, using(crate::proofs::Rules::checks), unfolding(object::specs::View::section_from))]
fn check_license(records: Records, s: SectionRecord, next: &[u32]) -> Result<(), Refusal>
    requires { of NextOf records next.now × (s.relocations.at + s.relocations.length ≤ records.view.relocations) }
    ensures { result ≡ checked_of (licence_refusal (of section_from records.entry s)) }
{
    if untargeted(s, next) {
        return object::of_section(4, s);
    }
    match license::parse_license(records.data(s.bytes)) {
        Ok(_) => Ok(()),
        Err(LicenseError::InvalidLicense) => object::of_section(5, s),
        Err(LicenseError::MissingLicenseNullTerminator) => object::of_section(6, s),
    }
}

// Numbers 4 and 7 of the section that is the version.
#[tactic(auto, using(crate::proofs::Rules::checks), unfolding(object::specs::View::section_from))]
fn check_version(records: Records, s: SectionRecord, next: &[u32]) -> Result<(), Refusal>
    requires { of NextOf records next.now × (s.relocations.at + s.relocations.length ≤ records.view.relocations) }
    ensures { result ≡ checked_of (version_refusal records.entry.view.order (of section_from records.entry s)) }
{
    if untargeted(s, next) {
        return object::of_section(4, s);
    }
    match license::parse_version(records.data(s.bytes), records.view.order) {
        Ok(_) => Ok(()),
        Err(VersionError::InvalidKernelVersion) => object::of_section(7, s),
    }
}

// Numbers 4 to 6, where the section named `license` is found.
#[tactic(auto, using(crate::proofs::Rules::named))]
pub fn license_refusal(object: Object, found: Option<u32>, next: &[u32]) -> Result<(), Refusal>
    requires { (found ≡ (of named_in object.records).license) × of NextOf object.records next.now }
    ensures { result ≡ checked_of (of licence_refused object.entry.records) }
{
    let Some(i) = found else {
        return Ok(());
    };
    check_license(object.records, object.records.section(i), next)
}

// Numbers 4 and 7, where the section named `version` is found.
#[tactic(auto, using(crate::proofs::Rules::named))]
pub fn version_refusal(object: Object, found: Option<u32>, next: &[u32]) -> Result<(), Refusal>
    requires { (found ≡ (of named_in object.records).version) × of NextOf object.records next.now }
    ensures { result ≡ checked_of (of version_refused object.entry.records) }
{
    let Some(i) = found else {
        return Ok(());
    };
    check_version(object.records, object.records.section(i), next)
}

// The range of the data that is the licence without its closing zero; none where no section is named so, and the licence is GPL.
#[tactic(auto, unfolding(crate::specs::LicenceVersion::license_at))]
pub fn license_of(records: Records, found: Option<u32>) -> Option<Extent>
    requires { found ≡ (of named_in records).license }
    ensures { result ≡ of license_at records.entry }
{
    let bytes = records.section(found?).bytes;
    Some(Extent {
        at: bytes.at,
        length: bytes.length.saturating_sub(1),
    })
}

// The version of an object that is not refused for it.
#[tactic(auto, using(crate::proofs::Rules::version), unfolding(object::specs::View::section_from))]
pub fn version_of(records: Records, found: Option<u32>) -> Option<u32>
    requires { (found ≡ (of named_in records).version) × (of version_refused records ≡ None) }
    ensures { result ≡ version_of (of object_in records.entry) }
{
    let data = records.data(records.section(found?).bytes);
    license::parse_version(data, records.view.order).unwrap_or(None)
}
