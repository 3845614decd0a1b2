// What versions of the protocol brought.
ghost use Rattle.std.specs.Prelude.{◌≡◌};
ghost use Rattle.protocol_types.specs.Feature.{first_version, has_feature, lacks_feature};

use crate::Version;

/// What a version brought, and all later ones have.
#[derive(Clone, Copy, Debug, PartialEq, Eq)]
pub enum Feature {
    /// The start tells the seed of random numbers.
    RandomSeed,
    /// A failure has metadata.
    FailureMetadata,
    /// A suspension waits for a tree, where it had three lists before.
    AwaitTree,
    /// An error says what becomes of its invocation.
    ErrorBehavior,
    /// A proposal of a run's outcome asks to be acknowledged.
    Acknowledgement,
    /// A call has a scope and a limit key, and the start tells them.
    Scope,
    /// What a handler reads of its object's state without a command in its journal.
    EphemeralState,
    /// An await asks for a number of successes.
    AtLeast,
}

impl Feature {
    /// The first version that has it.
    pub fn first_version(self) -> Version
        ensures { result ≡ first_version self }
    {
        match self {
            Feature::RandomSeed => Version::V6,
            Feature::FailureMetadata => Version::V6,
            Feature::AwaitTree => Version::V7,
            Feature::ErrorBehavior => Version::V7,
            Feature::Acknowledgement => Version::V7,
            Feature::Scope => Version::V7,
            Feature::EphemeralState => Version::V8,
            Feature::AtLeast => Version::V9,
        }
    }

    /// Whether the version with this number has it.
    pub fn is_in(self, number: u32) -> bool
        ensures { result ≡ has_feature number self }
    {
        self.first_version().number() <= number
    }

    /// Whether the version with this number is one before it.
    pub fn is_later_than(self, number: u32) -> bool
        ensures { result ≡ lacks_feature number self }
    {
        number < self.first_version().number()
    }
}
