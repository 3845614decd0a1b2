ghost use Rattle.std.specs.Prelude.{◌≡◌, Bool, true};

/// Values that are compared in full.
pub trait Same {
    // Whether two values are the same.
    ghost same: { Self → Self → Bool };

    /// Whether both values are the same.
    fn is_same(&self, other: &Self) -> bool
        ensures { result ≡ same self.now other.now };

    // It is true exactly where they are.
    ghost decides: { (x y : Self) → (same x y ≡ true → x ≡ y) × (x ≡ y → same x y ≡ true) };
}

/// Values that hold a payload, which a comparison may ignore.
pub trait SameBesidesPayload {
    // Whether two values are the same, where payloads are ignored or not.
    ghost same_besides: { Bool → Self → Self → Bool };

    /// Whether both values are the same, but for their payloads where these are ignored.
    fn is_same_besides_payload(&self, other: &Self, ignoring: bool) -> bool
        ensures { result ≡ same_besides ignoring self.now other.now };
}
