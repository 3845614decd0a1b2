//! Laws of every record, and of every value that was read: it fits, so they hold of it; and records are spelled as the definitions of
//! durable execution spell what they stand for. Each function does nothing: its contract is the law.
#![tactic(auto)]

ghost use Rattle.std.specs.Prelude.{List, None, length, ℕ, ◌++◌, ◌<◌, ◌^◌, ◌≡◌};
ghost use Rattle.protocol_wire.specs.Fields.{fields};
ghost use Rattle.protocol_wire.specs.Check.{payload_fault};
ghost use Rattle.protocol_wire.specs.Parts.{payload_of};
ghost use Rattle.protocol_wire.specs.DecodingAnswers.{IsRead};
ghost use Rattle.protocol_wire.specs.declared.record.TheConstants.{LEVELS};
ghost use Rattle.protocol_laws.specs.ReadFits.{AreBytes};

pub mod laws;
mod records;

use protocol_wire::Record;

/// A record whose payloads join: payloads that stand for one value lead to one value with the same bytes behind them.
pub trait Joining: Record {
    ghost joins: { (levels : ℕ) (a b c : List ℕ) → payload_fault levels Self.record_type a ≡ None → payload_fault levels Self.record_type b ≡ None → Self.of levels (fields a) ≡ Self.of levels (fields b) → Self.of levels (fields (a ++ c)) ≡ Self.of levels (fields (b ++ c)) };
}

/// Two values have the same canonical payload exactly where they are the same: where each number is within its type, each
/// text is UTF-8, no record stands more than a hundred levels below the payload, and the payload is shorter than 2^64 bytes.
pub fn payloads_tell_values_apart<R: Record>()
    ensures { (v w : R) → R.fits LEVELS v → R.fits LEVELS w → length (payload_of (R.parts v)) < 2 ^ 64 → (payload_of (R.parts v) ≡ payload_of (R.parts w) → v ≡ w) × (v ≡ w → payload_of (R.parts v) ≡ payload_of (R.parts w)) }
{}

/// A payload that is followed by another is the other merged into the first: where both are payloads of the record, so are
/// the two behind each other, and they stand for the value that `merge` gives of the first's value and the second payload,
/// and for no other.
pub fn followed_is_merged<R: Joining>()
    ensures accepted { (a b : List ℕ) → payload_fault LEVELS R.record_type a ≡ None → payload_fault LEVELS R.record_type b ≡ None → payload_fault LEVELS R.record_type (a ++ b) ≡ None }
    ensures merged { (a b : List ℕ) (v w : R) → IsRead LEVELS R.record_type R.of a v → R.fits LEVELS v → length (payload_of (R.parts v)) < 2 ^ 64 → payload_fault LEVELS R.record_type b ≡ None → IsRead LEVELS R.record_type R.of (payload_of (R.parts v) ++ b) w → IsRead LEVELS R.record_type R.of (a ++ b) w }
    ensures alone { (a b : List ℕ) (v w : R) → IsRead LEVELS R.record_type R.of a v → R.fits LEVELS v → length (payload_of (R.parts v)) < 2 ^ 64 → payload_fault LEVELS R.record_type b ≡ None → IsRead LEVELS R.record_type R.of (a ++ b) w → IsRead LEVELS R.record_type R.of (payload_of (R.parts v) ++ b) w }
{}

/// A record whose values fit where they were read: each number is within its type, each text is UTF-8, and so many levels are
/// enough.
pub trait FitsRead: Joining {
    ghost fits_read: { (levels : ℕ) (a : List ℕ) → AreBytes a → payload_fault levels Self.record_type a ≡ None → Self.fits levels (Self.of levels (fields a)) };
}

/// A value that was read fits. So it is read again from its canonical payload, where that is shorter than 2^64 bytes.
pub fn what_was_read_fits<R: FitsRead>()
    ensures fits { (a : List ℕ) (v : R) → AreBytes a → IsRead LEVELS R.record_type R.of a v → R.fits LEVELS v }
    ensures again { (a : List ℕ) (v : R) → AreBytes a → IsRead LEVELS R.record_type R.of a v → length (payload_of (R.parts v)) < 2 ^ 64 → IsRead LEVELS R.record_type R.of (payload_of (R.parts v)) v }
{}

/// Two values that were read have the same canonical payload exactly where they are the same, if it is shorter than 2^64 bytes.
pub fn payloads_tell_read_values_apart<R: FitsRead>()
    ensures { (a b : List ℕ) (v w : R) → AreBytes a → AreBytes b → IsRead LEVELS R.record_type R.of a v → IsRead LEVELS R.record_type R.of b w → length (payload_of (R.parts v)) < 2 ^ 64 → (payload_of (R.parts v) ≡ payload_of (R.parts w) → v ≡ w) × (v ≡ w → payload_of (R.parts v) ≡ payload_of (R.parts w)) }
{
    what_was_read_fits::<R>();
    payloads_tell_values_apart::<R>();
}

/// A payload that is followed by another is the other merged into the value that was read of the first: it stands for the value
/// that `merge` gives, and for no other, if the canonical payload of the first is shorter than 2^64 bytes.
pub fn what_was_read_is_merged<R: FitsRead>()
    ensures merged { (a b : List ℕ) (v w : R) → AreBytes a → IsRead LEVELS R.record_type R.of a v → length (payload_of (R.parts v)) < 2 ^ 64 → payload_fault LEVELS R.record_type b ≡ None → IsRead LEVELS R.record_type R.of (payload_of (R.parts v) ++ b) w → IsRead LEVELS R.record_type R.of (a ++ b) w }
    ensures alone { (a b : List ℕ) (v w : R) → AreBytes a → IsRead LEVELS R.record_type R.of a v → length (payload_of (R.parts v)) < 2 ^ 64 → payload_fault LEVELS R.record_type b ≡ None → IsRead LEVELS R.record_type R.of (a ++ b) w → IsRead LEVELS R.record_type R.of (payload_of (R.parts v) ++ b) w }
{
    what_was_read_fits::<R>();
    followed_is_merged::<R>();
}
