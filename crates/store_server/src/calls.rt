//! Requests that bring something, or hand something out: each is one call of the store.
ghost use Rattle.std.specs.Prelude.{string_bytes};
ghost use Rattle.server_lines.specs.declared.request.Request.TheVariants as request;
ghost use Rattle.store_server.specs.RequestAnswers.{MakesAnswer};
ghost use Rattle.store_server.specs.Lasting.{AnswersRequest};

use crate::answer::{accepted, begun, done, handed, placed, ticked};
use bytes::{ByteStr, Bytes};
use journal_store::{NewInvocation, NotificationResult, SignalKey, Store};
use sqlite::Alter;
use std::alloc::{AllocError, Global};

pub(crate) fn invoke<S: Alter + Drop>(
    alloc: Global,
    store: &mut Store<S>,
    new: NewInvocation,
) -> Result<String, AllocError>
    ensures { MakesAnswer string_bytes result (λ text. AnswersRequest S.Store (request.Invoke new) text store.old store.new) }
{
    let told = store.invoke(new);
    done(alloc, told)
}

pub(crate) fn complete<S: Alter + Drop>(
    alloc: Global,
    store: &mut Store<S>,
    id: &ByteStr,
    completion: u32,
    brought: NotificationResult,
) -> Result<String, AllocError>
    ensures { MakesAnswer string_bytes result (λ text. AnswersRequest S.Store (request.Result id.now completion brought) text store.old store.new) }
{
    let told = store.result(id, completion, brought);
    placed(alloc, told)
}

pub(crate) fn signal<S: Alter + Drop>(
    alloc: Global,
    store: &mut Store<S>,
    id: &ByteStr,
    key: SignalKey,
    brought: NotificationResult,
) -> Result<String, AllocError>
    ensures { MakesAnswer string_bytes result (λ text. AnswersRequest S.Store (request.Signal id.now key brought) text store.old store.new) }
{
    let told = store.signal(id, key, brought);
    placed(alloc, told)
}

pub(crate) fn cancel<S: Alter + Drop>(
    alloc: Global,
    store: &mut Store<S>,
    id: &ByteStr,
) -> Result<String, AllocError>
    ensures { MakesAnswer string_bytes result (λ text. AnswersRequest S.Store (request.Cancel id.now) text store.old store.new) }
{
    let told = store.cancel(id);
    placed(alloc, told)
}

pub(crate) fn tick<S: Alter + Drop>(
    alloc: Global,
    store: &mut Store<S>,
    now: u64,
) -> Result<String, AllocError>
    ensures { MakesAnswer string_bytes result (λ text. AnswersRequest S.Store (request.Tick now) text store.old store.new) }
{
    let told = store.tick(now);
    ticked(alloc, told)
}

pub(crate) fn begin<S: Alter + Drop>(
    alloc: Global,
    store: &mut Store<S>,
    id: &ByteStr,
    now: u64,
) -> Result<String, AllocError>
    ensures { MakesAnswer string_bytes result (λ text. AnswersRequest S.Store (request.Begin id.now now) text store.old store.new) }
{
    let told = store.begin(id, now);
    begun(alloc, told)
}

pub(crate) fn input<S: Alter + Drop>(
    alloc: Global,
    store: &mut Store<S>,
    id: &ByteStr,
    attempt: u32,
    most: u32,
) -> Result<String, AllocError>
    ensures { MakesAnswer string_bytes result (λ text. AnswersRequest S.Store (request.Input id.now attempt most) text store.old store.new) }
{
    let told = store.next_input(id, attempt, most as usize);
    handed(alloc, told)
}

pub(crate) fn output<S: Alter + Drop>(
    alloc: Global,
    store: &mut Store<S>,
    id: &ByteStr,
    attempt: u32,
    bytes: &Bytes,
) -> Result<String, AllocError>
    ensures { MakesAnswer string_bytes result (λ text. AnswersRequest S.Store (request.Output id.now attempt bytes.now) text store.old store.new) }
{
    let told = store.accept(id, attempt, bytes.as_slice());
    accepted(alloc, told)
}

pub(crate) fn close<S: Alter + Drop>(
    alloc: Global,
    store: &mut Store<S>,
    id: &ByteStr,
    attempt: u32,
) -> Result<String, AllocError>
    ensures { MakesAnswer string_bytes result (λ text. AnswersRequest S.Store (request.Close id.now attempt) text store.old store.new) }
{
    let told = store.close_input(id, attempt);
    done(alloc, told)
}

pub(crate) fn stop<S: Alter + Drop>(
    alloc: Global,
    store: &mut Store<S>,
    id: &ByteStr,
    attempt: u32,
) -> Result<String, AllocError>
    ensures { MakesAnswer string_bytes result (λ text. AnswersRequest S.Store (request.Stop id.now attempt) text store.old store.new) }
{
    let told = store.stop(id, attempt);
    done(alloc, told)
}

pub(crate) fn forget<S: Alter + Drop>(
    alloc: Global,
    store: &mut Store<S>,
    ids: &[ByteStr],
) -> Result<String, AllocError>
    ensures { MakesAnswer string_bytes result (λ text. AnswersRequest S.Store (request.Forget ids.now) text store.old store.new) }
{
    let told = store.forget(ids);
    done(alloc, told)
}
