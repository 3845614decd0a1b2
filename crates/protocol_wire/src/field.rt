ghost use Rattle.std.specs.Prelude.{◌≡◌, ◌<◌, ◌≤◌, ◌^◌, IfSome, length, option_map};
ghost use Rattle.protocol_wire.specs.Wire.{wire_value, field_at as field_spec, bytes_at as bytes_spec};
ghost use Rattle.protocol_wire.specs.CodeFields.{wire, field};

use crate::varint::varint_at;

/// What a field of a payload holds.
#[derive(Clone, Copy)]
pub enum Scanned<'a> {
    Varint(u64),
    Bytes(&'a [u8]),
    Fixed,
}

/// A field of a payload.
#[derive(Clone, Copy)]
pub struct ScannedField<'a> {
    pub number: u32,
    pub value: Scanned<'a>,
}

fn bytes_at(bytes: &[u8], count: u64) -> Option<(&[u8], &[u8])>
    ensures { option_map (λ x. (x.0.now, x.1.now)) result ≡ bytes_spec count bytes.now }
{
    if count <= bytes.len() as u64 {
        Some(bytes.split_at(count as usize))
    } else {
        None
    }
}

#[tactic(auto, unfolding(crate::specs::Wire::wire_value))]
fn value_at(bytes: &[u8], kind: u64) -> Option<(Scanned<'_>, &[u8])>
    ensures { option_map (λ x. (wire x.0, x.1.now)) result ≡ wire_value kind bytes.now }
{
    if kind == 0 {
        let (number, rest) = varint_at(bytes)?;
        Some((Scanned::Varint(number), rest))
    } else if kind == 2 {
        let (count, rest) = varint_at(bytes)?;
        let (front, rest) = bytes_at(rest, count)?;
        Some((Scanned::Bytes(front), rest))
    } else if kind == 1 {
        let (_, rest) = bytes_at(bytes, 8)?;
        Some((Scanned::Fixed, rest))
    } else if kind == 5 {
        let (_, rest) = bytes_at(bytes, 4)?;
        Some((Scanned::Fixed, rest))
    } else {
        None
    }
}

/// The field at the front, and the bytes after it.
#[tactic(auto, unfolding(crate::specs::Wire::field_at))]
pub fn field_at(bytes: &[u8]) -> Option<(ScannedField<'_>, &[u8])>
    ensures { option_map (λ x. (field x.0, x.1.now)) result ≡ field_spec bytes.now }
{
    let (tag, rest) = varint_at(bytes)?;
    if tag < 8 || tag >= 1 << 32 {
        return None;
    }
    let (value, rest) = value_at(rest, tag % 8)?;
    Some((
        ScannedField {
            number: (tag / 8) as u32,
            value,
        },
        rest,
    ))
}
