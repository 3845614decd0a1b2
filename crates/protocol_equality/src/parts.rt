// Numbers, texts, bytes, and what may be absent or come more than once.
ghost use Rattle.std.specs.Prelude.{◌≡◌, nat_eq};
ghost use Rattle.std.specs.Cmp.Lexicographic.{pointwise, pointwise_decides, bytes_decides};
ghost use Rattle.std.specs.Option.{option_eq};
ghost use Rattle.protocol_equality.specs.EqualityTests.{numbers_decide, options_decide};

use crate::Same;
use bytes::{ByteStr, Bytes};
use sequence::Sequence;

impl Same for u32 {
    ghost same = { nat_eq };

    fn is_same(&self, other: &u32) -> bool {
        *self == *other
    }

    ghost decides = { numbers_decide };
}

impl Same for u64 {
    ghost same = { nat_eq };

    fn is_same(&self, other: &u64) -> bool {
        *self == *other
    }

    ghost decides = { numbers_decide };
}

impl Same for ByteStr {
    ghost same = { pointwise nat_eq };

    fn is_same(&self, other: &ByteStr) -> bool {
        self == other
    }

    ghost decides = { bytes_decides };
}

impl Same for Bytes {
    ghost same = { pointwise nat_eq };

    fn is_same(&self, other: &Bytes) -> bool {
        self == other
    }

    ghost decides = { bytes_decides };
}

impl<T: Same> Same for Option<T> {
    ghost same = { option_eq T.same };

    fn is_same(&self, other: &Option<T>) -> bool {
        match (self, other) {
            (None, None) => true,
            (Some(one), Some(two)) => one.is_same(two),
            _ => false,
        }
    }

    ghost decides = { options_decide T.decides };
}

// Whether two lists have the same items in the same order.
fn is_same_list<T: Same>(one: &[T], two: &[T]) -> bool
    ensures { result ≡ pointwise T.same one.now two.now }
{
    if one.len() != two.len() {
        return false;
    }
    for at in 0..one.len() {
        if !one[at].is_same(&two[at]) {
            return false;
        }
    }
    true
}

impl<T: Same> Same for Sequence<T> {
    ghost same = { pointwise T.same };

    fn is_same(&self, other: &Sequence<T>) -> bool {
        is_same_list(self.as_slice(), other.as_slice())
    }

    ghost decides = { pointwise_decides T.decides };
}
