// The licence and the kernel version that an object asks for.
#![tactic(auto)]

ghost use Rattle.std.specs.Prelude.{◌≡◌};
ghost use Rattle.model.specs.LicenceVersion.{parse_license, parse_version};
ghost use Rattle.stream.specs.Spans.{bytes_of};

use model::{Endianness, LicenseError, VersionError};
use stream::Span;

const KERNEL_VERSION_ANY: u32 = 0xFFFF_FFFE;

#[tactic(auto, using(crate::proofs::Walk::short, crate::proofs::Walk::begins, crate::proofs::Walk::fits, crate::proofs::Walk::meets_zero, crate::proofs::Walk::closed, crate::proofs::Walk::open_end))]
pub fn parse_license(section: Span) -> Result<u64, LicenseError>
    ensures { result ≡ parse_license (bytes_of section.entry) }
{
    if section.len < 2 {
        return Err(LicenseError::InvalidLicense);
    }
    let last = section.len - 1;
    let mut run = section.stream.run(section.at);
    for _ in 0..last {
        if section.stream.byte(run) == 0 {
            return Err(LicenseError::InvalidLicense);
        }
        run = section.stream.skip(run, 1);
    }
    if section.stream.byte(run) != 0 {
        return Err(LicenseError::MissingLicenseNullTerminator);
    }
    Ok(last as u64)
}

#[tactic(auto, using(crate::proofs::Version::little_number, crate::proofs::Version::big_number, crate::proofs::Version::other, crate::proofs::Version::any, crate::proofs::Version::told))]
pub fn parse_version(section: Span, order: Endianness) -> Result<Option<u32>, VersionError>
    ensures { result ≡ parse_version order (bytes_of section.entry) }
{
    if section.len != 4 {
        return Err(VersionError::InvalidKernelVersion);
    }
    let mut bytes = [0u8; 4];
    section.stream.copy_bytes(section.at, &mut bytes);
    let version = match order {
        Endianness::Little => u32::from_le_bytes(bytes),
        Endianness::Big => u32::from_be_bytes(bytes),
    };
    if version == KERNEL_VERSION_ANY {
        Ok(None)
    } else {
        Ok(Some(version))
    }
}
