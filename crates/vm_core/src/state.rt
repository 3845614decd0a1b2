// Calls of the object's state.
ghost use Rattle.journal_model.specs.declared.call.Call.{Call};
ghost use Rattle.vm_outcomes.specs.CallOutcomes.{CarriesOut};

use crate::{CoreVM, VM};
use bytes::{ByteStr, Bytes};
use journal_model::PayloadOptions;
use vm_outcomes::{CallOutcome, done, handled};

/// Reads a key.
pub(crate) fn state_get(
    vm: &mut CoreVM,
    key: ByteStr,
    name: Option<ByteStr>,
    options: PayloadOptions,
) -> CallOutcome
    ensures { CarriesOut (Call.StateGet key name options) vm.old.state result vm.new.state }
{
    handled(vm.sys_state_get(key, name, options))
}

/// Reads the keys.
pub(crate) fn state_get_keys(vm: &mut CoreVM, name: Option<ByteStr>) -> CallOutcome
    ensures { CarriesOut (Call.StateGetKeys name) vm.old.state result vm.new.state }
{
    handled(vm.sys_state_get_keys(name))
}

/// Sets a key.
pub(crate) fn state_set(
    vm: &mut CoreVM,
    key: ByteStr,
    value: Bytes,
    name: Option<ByteStr>,
    options: PayloadOptions,
) -> CallOutcome
    ensures { CarriesOut (Call.StateSet key value name options) vm.old.state result vm.new.state }
{
    done(vm.sys_state_set(key, value, name, options))
}

/// Clears a key.
pub(crate) fn state_clear(vm: &mut CoreVM, key: ByteStr, name: Option<ByteStr>) -> CallOutcome
    ensures { CarriesOut (Call.StateClear key name) vm.old.state result vm.new.state }
{
    done(vm.sys_state_clear(key, name))
}

/// Clears all of it.
pub(crate) fn state_clear_all(vm: &mut CoreVM, name: Option<ByteStr>) -> CallOutcome
    ensures { CarriesOut (Call.StateClearAll name) vm.old.state result vm.new.state }
{
    done(vm.sys_state_clear_all(name))
}
