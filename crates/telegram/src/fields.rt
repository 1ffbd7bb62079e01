ghost use Rattle.std.specs.Prelude.{◌≡◌, drop, slice_index};
ghost use Rattle.telegram.specs.Format.{value_of, sayable as is_sayable};
ghost use Rattle.telegram.specs.Reading.{saying, listed, text_fields, read_fields};

use crate::faults::Fault;
use crate::kinds::Kind;
use crate::modes::LISTED_MODES;
use crate::orders::Order;

// The byte at a place, or 0 past the end.
fn byte_at(bytes: &[u8], place: usize) -> u8
    ensures { result ≡ slice_index bytes.now place }
{
    bytes.get(place).copied().unwrap_or(0)
}

// The bytes from a place on, or none past the end.
pub(crate) fn rest(bytes: &[u8], place: usize) -> &[u8]
    ensures { result.now ≡ drop place bytes.now }
{
    bytes.get(place..).unwrap_or(&[])
}

// What a byte's first two bits name in a list; its other six are zero.
fn listed<T: Copy>(list: &[T], byte: u8) -> Result<T, Fault>
    ensures { result ≡ listed list.now byte }
{
    let value = list
        .get(byte as usize / 64)
        .copied()
        .ok_or(Fault::OutsideList)?;
    if byte % 64 != 0 {
        return Err(Fault::FillerSet);
    }
    Ok(value)
}

fn sayable(text: &[u8]) -> bool
    ensures { result ≡ is_sayable text.now }
{
    text.iter().all(|byte| matches!(byte, 32..=126 | 160..=255))
}

fn read_text(fields: &[u8]) -> Result<Order<'_>, Fault>
    ensures { saying value_of result ≡
        text_fields (slice_index fields.now 0) (slice_index fields.now 1) (drop 2 fields.now) }
{
    let wanted = match byte_at(fields, 1) {
        0x00 => false,
        0x80 => true,
        _ => return Err(Fault::FillerSet),
    };
    let text = rest(fields, 2);
    if !sayable(text) {
        return Err(Fault::TextByte);
    }
    Ok(Order::Text {
        number: byte_at(fields, 0),
        wanted,
        text,
    })
}

// The fields of an order of a kind, in its bytes after the first two.
pub(crate) fn read_fields(kind: Kind, fields: &[u8]) -> Result<Order<'_>, Fault>
    ensures { saying value_of result ≡ read_fields kind fields.now }
{
    match kind {
        Kind::Authority => Ok(Order::Authority(listed(&LISTED_MODES, byte_at(fields, 0))?)),
        Kind::Level => Ok(Order::Level(listed(&[0, 1, 2], byte_at(fields, 0))?)),
        Kind::Text => read_text(fields),
        Kind::TextWithdrawal => Ok(Order::TextWithdrawal(byte_at(fields, 0))),
        Kind::EmergencyStop => Ok(Order::EmergencyStop),
        Kind::Sign => Ok(Order::Sign),
        Kind::Permission => Ok(Order::Permission),
    }
}
