// The machine, and how it is made.
ghost use Rattle.std.specs.Prelude.{◌≡◌, ◌==◌, Some};
ghost use Rattle.protocol_errors.specs.Code.{suspended};
ghost use Rattle.vm_c_machine.specs.Calls.{MakesMachine};
ghost use Rattle.vm_c_values.specs.Options.{vm_options};
ghost use Rattle.vm_c_values.specs.declared.not_done.NotDone.TheVariants.{Failed};

use bytes::ByteStr;
use journal_model::Input;
use protocol_errors::Error;
use protocol_stream::HeaderMap;
use std::alloc::Global;
use std::convert::Infallible;
use std::mem;
use vm_c_values::{NotDone, copied_text, vm_options};
use vm_core::{CoreVM, VM};

/// A machine, with what it was given and has failed with.
#[derive(Drop)]
pub struct Machine {
    pub(crate) alloc: Global,
    pub(crate) vm: CoreVM,
    /// What it has answered last in place of what was asked.
    pub(crate) failure: Option<Error>,
    /// What it has read.
    pub(crate) input: Option<Input>,
}

// The headers of a request whose content type this is.
#[derive(Drop)]
struct ContentType(ByteStr);

impl HeaderMap for ContentType {
    type Error = Infallible;

    ghost text_of = { λ header name. Some header.0 };

    ghost fails = { λ header name error. ⊥ };

    fn extract(&self, _name: &str) -> Result<Option<&str>, Infallible> {
        Ok(Some(self.0.as_str()))
    }
}

impl Machine {
    /// A machine for a request of this content type. Where none is made, the code says why.
    pub fn new(
        alloc: Global,
        content_type: &[u8],
        options: u32,
        fallback_random_seed: u64,
        code: &mut u32,
    ) -> Result<Machine, NotDone>
        ensures { MakesMachine content_type.now (vm_options options fallback_random_seed) code.new result }
    {
        *code = 0;
        let headers = ContentType(copied_text(alloc, content_type)?);
        match CoreVM::new(alloc, &headers, vm_options(options, fallback_random_seed)) {
            Ok(vm) => Ok(Machine {
                alloc,
                vm,
                failure: None,
                input: None,
            }),
            Err(error) => {
                *code = u32::from(error.code());
                Err(NotDone::Failed {
                    is_suspended: false,
                })
            }
        }
    }

    // Keeps what the machine has answered.
    pub(crate) fn failed(&mut self, error: Error) -> NotDone
        ensures why { result ≡ Failed (error.code.0 == suspended) }
        ensures kept { self.new ≡ record self.old { failure = Some error } }
    {
        let is_suspended = error.is_suspended_error();
        let earlier = mem::replace(&mut self.failure, Some(error));
        drop(earlier);
        NotDone::Failed { is_suspended }
    }
}
