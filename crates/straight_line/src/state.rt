//! The state of the object.
ghost use Rattle.std.specs.Prelude.{◌≡◌};
ghost use Rattle.straight_line.specs.Steps as steps;
ghost use Rattle.straight_line.specs.Calls as told;
ghost use Rattle.straight_line.specs.Everyday as everyday;

use crate::calls::Calls;
use crate::handles::{KeysRead, StateRead};
use crate::stop::{Stop, Told, astray, stable};
use bytes::{ByteStr, Bytes};
use journal_model::{Answer, Call, PayloadOptions};
use sequence::Sequence;

impl<'a> Calls<'a> {
    /// Begins to read a key.
    #[tactic(auto, unfolding(crate::specs::Calls::begin_get))]
    pub fn begin_get(
        &mut self,
        key: ByteStr,
        name: Option<ByteStr>,
        options: PayloadOptions,
    ) -> Told<StateRead>
        ensures { steps.Makes (told.begin_get key name options) self.old result self.new }
    {
        match self.next_answer() {
            Some(Answer::Handle(handle)) => Ok(StateRead { handle: *handle }),
            Some(_) => Err(astray()),
            None => Err(Stop::Call(Call::StateGet { key, name, options })),
        }
    }

    /// The value of a key, if it has one.
    #[tactic(auto, unfolding(crate::specs::Everyday::get))]
    pub fn get(&mut self, key: ByteStr) -> Told<Option<Bytes>>
        ensures { steps.Makes (everyday.get key) self.old result self.new }
    {
        let read = self.begin_get(key, None, stable())?;
        self.state_of(read)
    }

    /// Begins to read the keys.
    #[tactic(auto, unfolding(crate::specs::Calls::begin_get_keys))]
    pub fn begin_get_keys(&mut self, name: Option<ByteStr>) -> Told<KeysRead>
        ensures { steps.Makes (told.begin_get_keys name) self.old result self.new }
    {
        match self.next_answer() {
            Some(Answer::Handle(handle)) => Ok(KeysRead { handle: *handle }),
            Some(_) => Err(astray()),
            None => Err(Stop::Call(Call::StateGetKeys { name })),
        }
    }

    /// The keys that have a value, in byte order.
    #[tactic(auto, unfolding(crate::specs::Everyday::get_keys))]
    pub fn get_keys(&mut self) -> Told<Sequence<ByteStr>>
        ensures { steps.Makes everyday.get_keys self.old result self.new }
    {
        let read = self.begin_get_keys(None)?;
        self.keys_of(read)
    }

    /// Sets a key, under a name.
    #[tactic(auto, unfolding(crate::specs::Calls::set_with))]
    pub fn set_with(
        &mut self,
        key: ByteStr,
        value: Bytes,
        name: Option<ByteStr>,
        options: PayloadOptions,
    ) -> Told<()>
        ensures { steps.Makes (told.set_with key value name options) self.old result self.new }
    {
        match self.next_answer() {
            Some(_) => Ok(()),
            None => Err(Stop::Call(Call::StateSet {
                key,
                value,
                name,
                options,
            })),
        }
    }

    /// Sets a key.
    #[tactic(auto, unfolding(crate::specs::Everyday::set))]
    pub fn set(&mut self, key: ByteStr, value: Bytes) -> Told<()>
        ensures { steps.Makes (everyday.set key value) self.old result self.new }
    {
        self.set_with(key, value, None, stable())
    }

    /// Clears a key, under a name.
    #[tactic(auto, unfolding(crate::specs::Calls::clear_with))]
    pub fn clear_with(&mut self, key: ByteStr, name: Option<ByteStr>) -> Told<()>
        ensures { steps.Makes (told.clear_with key name) self.old result self.new }
    {
        match self.next_answer() {
            Some(_) => Ok(()),
            None => Err(Stop::Call(Call::StateClear { key, name })),
        }
    }

    /// Clears a key.
    #[tactic(auto, unfolding(crate::specs::Everyday::clear))]
    pub fn clear(&mut self, key: ByteStr) -> Told<()>
        ensures { steps.Makes (everyday.clear key) self.old result self.new }
    {
        self.clear_with(key, None)
    }

    /// Clears all keys, under a name.
    #[tactic(auto, unfolding(crate::specs::Calls::clear_all_with))]
    pub fn clear_all_with(&mut self, name: Option<ByteStr>) -> Told<()>
        ensures { steps.Makes (told.clear_all_with name) self.old result self.new }
    {
        match self.next_answer() {
            Some(_) => Ok(()),
            None => Err(Stop::Call(Call::StateClearAll { name })),
        }
    }

    /// Clears all keys.
    #[tactic(auto, unfolding(crate::specs::Everyday::clear_all))]
    pub fn clear_all(&mut self) -> Told<()>
        ensures { steps.Makes everyday.clear_all self.old result self.new }
    {
        self.clear_all_with(None)
    }
}
