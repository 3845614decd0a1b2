ghost use Rattle.std.specs.Prelude.{◌≡◌, ◌<◌, ◌≤◌, ◌^◌, IfSome, length, option_map};
ghost use Rattle.protocol_wire.specs.Wire.{varint_within, varint_at as varint_spec};

#[tactic(auto, unfolding(crate::specs::Wire::varint_within))]
fn varint_within(bytes: &[u8], most: u8) -> Option<(u64, &[u8])>
    ensures { option_map (λ x. (x.0, x.1.now)) result ≡ varint_within most bytes.now }
{
    if most == 0 {
        return None;
    }
    let (first, rest) = bytes.split_first()?;
    if *first < 128 {
        return Some((u64::from(*first), rest));
    }
    let (high, rest) = varint_within(rest, most - 1)?;
    if high >= 1 << 57 {
        return None;
    }
    Some((u64::from(*first - 128) + 128 * high, rest))
}

/// The number at the front, and the bytes after it.
#[tactic(auto, unfolding(crate::specs::Wire::varint_at, crate::specs::Wire::varint_within))]
pub fn varint_at(bytes: &[u8]) -> Option<(u64, &[u8])>
    ensures { option_map (λ x. (x.0, x.1.now)) result ≡ varint_spec bytes.now }
{
    let (first, rest) = bytes.split_first()?;
    if *first < 128 {
        return Some((u64::from(*first), rest));
    }
    varint_within(bytes, 10)
}
