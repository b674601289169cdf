// Document 01, the 4,096-byte file header: its reader and its writer, for the two versions that
// document 02's request 10 has.
#![tactic(auto)]

ghost use Rattle.std.specs.Prelude.{◌≡◌};
ghost use Rattle.header.specs.Header.{said_header, read_of, Writes};

use answers::{LogFile, Refusal, Version};

pub const HEADER_LENGTH: usize = 4096;

// The bytes 4C 4F 43 4B 44 41 54 31, the first lowest.
const SIGNATURE: u64 = 0x3154_4144_4B43_4F4C;

// The file's version and ordinal. Refusals 1, 2.
#[tactic(auto, using(crate::proofs::Signatures::signature_number), unfolding(crate::specs::Header::read_of, crate::specs::Header::read_tests, answers::specs::Versions::version_refusal))]
pub fn read_header(header: &[u8]) -> Result<LogFile, Refusal>
    ensures { said_header result ≡ read_of header.now }
{
    if header.len() < HEADER_LENGTH {
        return Err(Refusal::HeaderTooShort);
    }
    if fields::read::<8>(header, 0) != SIGNATURE {
        return Err(Refusal::WrongHeader);
    }
    let version = fields::read::<4>(header, 8);
    Version::try_from(version)?;
    Ok(LogFile {
        version,
        ordinal: fields::read::<8>(header, 16),
    })
}

// Fills the first 4,096 bytes and touches no more. Refusals 1, 2.
#[tactic(auto, unfolding(crate::specs::Header::write_of, answers::specs::Versions::version_refusal))]
pub fn write_header(lent: &mut [u8], file: LogFile) -> Result<(), Refusal>
    ensures { Writes lent.old file.version file.ordinal result lent.new }
{
    if lent.len() < HEADER_LENGTH {
        return Err(Refusal::HeaderTooShort);
    }
    Version::try_from(file.version)?;
    fields::put::<8>(lent, 0, SIGNATURE);
    fields::put::<4>(lent, 8, file.version);
    fields::put::<4>(lent, 12, 0);
    fields::put::<8>(lent, 16, file.ordinal);
    fields::fill(lent, 24, 4072, 0);
    Ok(())
}
