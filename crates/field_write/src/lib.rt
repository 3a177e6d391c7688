// The fields of a certificate (docs/SPECIFICATION.md, 'The certificate'), written at an offset of lent bytes.
#![tactic(auto)]

ghost use Rattle.std.specs.Prelude.{◌≡◌, ◌+◌, ◌≤◌, length};
ghost use Rattle.model.specs.Certificate.{answer, gap};
ghost use Rattle.field_write.specs.Stored.{placed, stored, stored_result};

use refusal::Reason;

// How many bytes the field of an answer takes, and that of a gap.
const ANSWER_BYTES: usize = 15;

const GAP_BYTES: usize = 19;

// Writes bytes at an offset.
fn write_bytes(certificate: &mut [u8], at: usize, bytes: &[u8])
    requires { at + length bytes.now ≤ length certificate.old }
    ensures { certificate.new ≡ placed certificate.old at bytes.now }
{
    certificate[at..at + bytes.len()].copy_from_slice(bytes);
}

// Writes an answer's field from `at` on where it fits whole, and returns the offset after it; otherwise nothing is written.
pub fn write_answer(
    certificate: &mut [u8],
    at: usize,
    value: u32,
    mask: u64,
) -> Result<usize, Reason>
    ensures bytes { certificate.new ≡ stored certificate.old at (answer value mask) }
    ensures result { result ≡ stored_result certificate.old at (answer value mask) }
{
    if certificate.len().saturating_sub(at) < ANSWER_BYTES {
        return Err(Reason::CertificateFull);
    }
    write_bytes(certificate, at, &[1, 12, 0]);
    write_bytes(certificate, at + 3, &value.to_le_bytes());
    write_bytes(certificate, at + 7, &mask.to_le_bytes());
    Ok(at + ANSWER_BYTES)
}

// Writes a gap's field from `at` on where it fits whole, and returns the offset after it; otherwise nothing is written.
pub fn write_gap(
    certificate: &mut [u8],
    at: usize,
    first: u32,
    last: u32,
    mask: u64,
) -> Result<usize, Reason>
    ensures bytes { certificate.new ≡ stored certificate.old at (gap first last mask) }
    ensures result { result ≡ stored_result certificate.old at (gap first last mask) }
{
    if certificate.len().saturating_sub(at) < GAP_BYTES {
        return Err(Reason::CertificateFull);
    }
    write_bytes(certificate, at, &[2, 16, 0]);
    write_bytes(certificate, at + 3, &first.to_le_bytes());
    write_bytes(certificate, at + 7, &last.to_le_bytes());
    write_bytes(certificate, at + 11, &mask.to_le_bytes());
    Ok(at + GAP_BYTES)
}
