// The fields of a certificate (docs/SPECIFICATION.md, 'The certificate'), read at an offset of lent bytes.
#![tactic(auto)]

ghost use Rattle.std.specs.Prelude.{◌≡◌, ◌+◌, ◌≤◌, length, take, drop};
ghost use Rattle.model.specs.Certificate.{number_of, read_field};
ghost use Rattle.field_read.specs.Reading.{reading_of, EndsFrom};

use refusal::Reason;

// The tag of an answer and the length of its body, and those of a gap.
const ANSWER_TAG: u8 = 1;

const ANSWER_SIZE: u16 = 12;

const GAP_TAG: u8 = 2;

const GAP_SIZE: u16 = 16;

// How many bytes a field's tag and length take, and the whole field of an answer and of a gap.
const HEAD_BYTES: usize = 3;

const ANSWER_BYTES: usize = 15;

const GAP_BYTES: usize = 19;

// One part of a certificate.
#[derive(Clone, Copy)]
pub enum Part {
    Answer { value: u32, mask: u64 },
    Gap { first: u32, last: u32, mask: u64 },
}

// A part, with the offset after its field.
#[derive(Clone, Copy)]
pub struct Field {
    pub part: Part,
    pub next: usize,
}

// Reads a number of two bytes, the lowest first; `read_u32` and `read_u64` read one of four and of eight.
fn read_u16(bytes: &[u8], at: usize) -> u16
    requires { at + 2 ≤ length bytes.now }
    ensures { result ≡ number_of (take 2 (drop at bytes.now)) }
{
    u16::from_le_bytes([bytes[at], bytes[at + 1]])
}

fn read_u32(bytes: &[u8], at: usize) -> u32
    requires { at + 4 ≤ length bytes.now }
    ensures { result ≡ number_of (take 4 (drop at bytes.now)) }
{
    u32::from_le_bytes([bytes[at], bytes[at + 1], bytes[at + 2], bytes[at + 3]])
}

fn read_u64(bytes: &[u8], at: usize) -> u64
    requires { at + 8 ≤ length bytes.now }
    ensures { result ≡ number_of (take 8 (drop at bytes.now)) }
{
    u64::from_le_bytes([
        bytes[at],
        bytes[at + 1],
        bytes[at + 2],
        bytes[at + 3],
        bytes[at + 4],
        bytes[at + 5],
        bytes[at + 6],
        bytes[at + 7],
    ])
}

// Reads the field that starts at `at`, which may lie anywhere; the refusal where no whole field of a known tag and its length stands there.
pub fn read_field(certificate: &[u8], at: usize) -> Result<Field, Reason>
    ensures reading { reading_of certificate.now result ≡ read_field (drop at certificate.now) }
    ensures next { EndsFrom at result }
{
    let left = certificate.len().saturating_sub(at);
    if left < HEAD_BYTES {
        return Err(Reason::Field);
    }
    match (certificate[at], read_u16(certificate, at + 1)) {
        (ANSWER_TAG, ANSWER_SIZE) if ANSWER_BYTES <= left => Ok(Field {
            part: Part::Answer {
                value: read_u32(certificate, at + 3),
                mask: read_u64(certificate, at + 7),
            },
            next: at + ANSWER_BYTES,
        }),
        (GAP_TAG, GAP_SIZE) if GAP_BYTES <= left => Ok(Field {
            part: Part::Gap {
                first: read_u32(certificate, at + 3),
                last: read_u32(certificate, at + 7),
                mask: read_u64(certificate, at + 11),
            },
            next: at + GAP_BYTES,
        }),
        _ => Err(Reason::Field),
    }
}
