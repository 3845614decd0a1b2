//! Lines of clients: those that are read, those that are not, and what clients are answered.
use bytes::{ByteStr, Bytes};
use call_lines::call::Said;
use call_lines::line::{ClientLine, parse_client_line};
use call_lines::reply::{AnswerReply, AttemptReply, CallReply};
use journal_model::{Answer, Call, Input, NotificationHandle, UnresolvedFuture, Value};
use sequence::Sequence;
use std::alloc::{AllocError, Global};
use std::test::Fail;

/// One of each call and each line, and words in each of their forms.
const READ: [&str; 43] = [
    "attempt i1 7",
    "do i1 1 get k",
    "do i1 1 unstable get %20 n",
    "do i1 1 keys",
    "do i1 1 set k - n",
    "do i1 1 clear k",
    "do i1 1 clear-all n",
    "do i1 1 sleep 18446744073709551615",
    "do i1 1 sleep 5 nap",
    "do i1 1 call S h none t: t:s none - none",
    "do i1 1 unstable call S h t:k none none none v t:n a b c d",
    "do i1 1 send now S h none none none none x none",
    "do i1 1 send 5 S h none none none none x none a b",
    "do i1 1 awakeable",
    "do i1 1 complete-awakeable a v:",
    "do i1 1 complete-awakeable a f:500:no k v",
    "do i1 1 signal s",
    "do i1 1 complete-signal i2 s v:x",
    "do i1 1 promise p",
    "do i1 1 peek-promise p",
    "do i1 1 unstable complete-promise p v:x",
    "do i1 1 run",
    "do i1 1 run pay",
    "do i1 1 cancel i2",
    "do i1 1 attach id i2",
    "do i1 1 output-of workflow W k none",
    "do i1 1 attach idempotent S h key t:k t:s",
    "do i1 1 completed 17",
    "do i1 1 take 4294967295",
    "do i1 1 await 17",
    "do i1 1 wait any:2 17 all:2 18 at-least:1:2 19 20",
    "do i1 1 await first-succeeded:0",
    "do i1 1 await all-succeeded:1 unknown:1 17",
    "do i1 1 output v:%0a",
    "do i1 1 end",
    "outcome i1 1 17 ok:",
    "outcome i1 1 17 fail:65535:no k v",
    "outcome i1 1 17 retry:500:later 20 always",
    "outcome i1 1 17 retry:500:later 20 fixed-delay none 3 none fail",
    "outcome i1 1 17 retry:500:later 20 exponential 50 2 1 10000 none 60000 pause",
    "go i1 1",
    "suspend i1 1",
    "show i1",
];

/// Each lacks something of a line, or has too much of it.
const NOT_READ: [&str; 25] = [
    "",
    "attempt i1",
    "attempt i1 07",
    "do i1 1",
    "do i1 1 nothing",
    "do i1  1 end",
    "do i1 4294967296 end",
    "do i1 1 end now",
    "do i1 1 unstable end",
    "do i1 1 unstable",
    "do i1 1 get",
    "do i1 1 get k n m",
    "do i1 1 call S h none none none none -",
    "do i1 1 call S h none none none none - none a",
    "do i1 1 complete-promise p v:x k",
    "do i1 1 complete-promise p f:65536:no",
    "do i1 1 await",
    "do i1 1 await 17 18",
    "do i1 1 await any:2 17",
    "do i1 1 await at-least:1 17",
    "outcome i1 1 17 retry:500:later 20 exponential 50 2 0 none none none fail",
    "outcome i1 1 17 ok: x",
    "begin i1 7",
    "output i1 1 -",
    "close i1 1",
];

/// Whether a line says something.
fn is_read(alloc: Global, line: &str) -> Result<bool, AllocError> {
    let read = parse_client_line(alloc, line.as_bytes())?;
    let is_read = read.is_some();
    drop(read);
    Ok(is_read)
}

/// How many of the lines say something.
fn read_of(alloc: Global, lines: &[&str]) -> Result<usize, AllocError> {
    let mut count = 0usize;
    for line in lines {
        if is_read(alloc, line)? {
            count = count.wrapping_add(1);
        }
    }
    Ok(count)
}

#[test]
fn lines_that_are_read(rt: HostRuntime) -> Result<(), Fail> {
    assert!(rt; read_of(rt.alloc(), READ.as_slice())? == 43);
    assert!(rt; read_of(rt.alloc(), NOT_READ.as_slice())? == 0);
    Ok(())
}

/// Whether a line says an await of this future.
fn awaits(alloc: Global, line: &str, wanted: UnresolvedFuture) -> Result<bool, AllocError> {
    let read = parse_client_line(alloc, line.as_bytes())?;
    let is_so = match &read {
        Some(
            ClientLine::Do {
                said: Said::Call(Call::Await(awaited)),
                ..
            },
        ) => *awaited.future() == wanted,
        _ => false,
    };
    drop((read, wanted));
    Ok(is_so)
}

#[test]
fn trees_have_their_children_in_order(rt: HostRuntime) -> Result<(), Fail> {
    let handles = (NotificationHandle::new(17), NotificationHandle::new(18));
    let two = UnresolvedFuture::two(rt.alloc(), handles.0, handles.1)?;
    let line = "do i1 1 await all:2 17 18";
    assert!(rt; awaits(rt.alloc(), line, UnresolvedFuture::AllCompleted(two))?);
    Ok(())
}

/// Whether an answer is printed so.
fn is_answer(alloc: Global, answer: Answer, wanted: &str) -> Result<bool, AllocError> {
    let reply = AnswerReply(&answer);
    let text = format!(in alloc; "{reply}")?;
    let is_so = text.as_str() == wanted;
    drop((text, answer));
    Ok(is_so)
}

#[test]
fn answers_as_they_are_printed(rt: HostRuntime) -> Result<(), Fail> {
    let handle = NotificationHandle::new(17);
    assert!(rt; is_answer(rt.alloc(), Answer::Handle(handle), "handle 17")?);
    let both = Answer::Handles {
        invocation_id_handle: handle,
        result_handle: NotificationHandle::new(18),
    };
    assert!(rt; is_answer(rt.alloc(), both, "handles 17 18")?);
    let awakeable = Answer::Awakeable {
        id: ByteStr::from_static("sign_1"),
        handle,
    };
    assert!(rt; is_answer(rt.alloc(), awakeable, "awakeable sign_1 17")?);
    let taken = Answer::Taken(Some(Value::Success(Bytes::from_static(b"a b"))));
    assert!(rt; is_answer(rt.alloc(), taken, "taken value a%20b")?);
    assert!(rt; is_answer(rt.alloc(), Answer::Taken(None), "taken none")?);
    assert!(rt; is_answer(rt.alloc(), Answer::Completed(true), "completed yes")?);
    Ok(())
}

/// Whether a reply is printed so.
fn is_reply(alloc: Global, reply: CallReply<'_>, wanted: &str) -> Result<bool, AllocError> {
    let text = format!(in alloc; "{reply}")?;
    let is_so = text.as_str() == wanted;
    drop(text);
    Ok(is_so)
}

#[test]
fn replies_as_they_are_printed(rt: HostRuntime) -> Result<(), Fail> {
    let handles = [NotificationHandle::new(17), NotificationHandle::new(18)];
    let failed = CallReply::Failed {
        code: 570,
        message: b"-",
    };
    assert!(rt; is_reply(rt.alloc(), CallReply::Executes(&handles), "execute 17 18")?);
    assert!(rt; is_reply(rt.alloc(), failed, "failed 570 %2D")?);
    assert!(rt; is_reply(rt.alloc(), CallReply::NotNow, "not now")?);
    Ok(())
}

/// What an attempt has read.
fn input(alloc: Global) -> Input {
    Input {
        invocation_id: ByteStr::from_static("i1"),
        key: ByteStr::from_static("o"),
        random_seed: 7,
        headers: Sequence::new(alloc),
        input: Bytes::new(),
        scope: None,
        limit_key: None,
        idempotency_key: None,
    }
}

/// Whether it is printed so.
fn is_begun(alloc: Global, input: Input, wanted: &str) -> Result<bool, AllocError> {
    let reply = AttemptReply {
        attempt: 1,
        input: &input,
    };
    let text = format!(in alloc; "{reply}")?;
    let is_so = text.as_str() == wanted;
    drop((text, input));
    Ok(is_so)
}

#[test]
fn an_attempt_as_it_is_printed(rt: HostRuntime) -> Result<(), Fail> {
    assert!(rt; is_begun(rt.alloc(), input(rt.alloc()), "attempt 1 o 7 -")?);
    Ok(())
}
