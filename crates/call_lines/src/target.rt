//! The words by which other invocations are named.

ghost use Rattle.std.specs.Prelude.{map};
ghost use Rattle.script_lines.specs.LineReader.{Gives};
ghost use Rattle.call_lines.specs.TargetReader.{attached_of, id_of, idempotent_of, optionals_of, target_of, workflow_of};
ghost use Rattle.call_lines.specs.WordReader.{pair_read};

use crate::word::{parse_optional, parse_pair};
use bytes::ByteStr;
use journal_model::{AttachInvocationTarget, Target};
use script_lines::word::LineError;
use server_lines::request::parse_headers;
use server_lines::word::parse_text;
use std::alloc::Global;

#[tactic(auto, unfolding(crate::specs::TargetReader::optionals_of, script_lines::specs::LineReader::then_read))]
fn parse_optionals(
    alloc: Global,
    first: &[u8],
    second: &[u8],
) -> Result<(Option<ByteStr>, Option<ByteStr>), LineError>
    ensures { Gives result (optionals_of first.now second.now) }
{
    let first = parse_optional(alloc, first)?;
    let second = parse_optional(alloc, second)?;
    Ok((first, second))
}

/// Whom a call or a send is for: `SERVICE HANDLER KEY IDEMPOTENCY SCOPE LIMIT`, of which the last four may be `none`, and the headers.
#[tactic(auto, unfolding(crate::specs::TargetReader::target_of, script_lines::specs::LineReader::then_read))]
pub fn parse_target(
    alloc: Global,
    service: &[u8],
    handler: &[u8],
    key: &[u8],
    idempotency_key: &[u8],
    scope: &[u8],
    limit_key: &[u8],
    headers: &[&[u8]],
) -> Result<Target, LineError>
    ensures { Gives result (target_of service.now handler.now key.now idempotency_key.now scope.now limit_key.now (map (λ word. word.now) headers.now)) }
{
    let called = parse_pair(alloc, service, handler)?;
    let keys = parse_optionals(alloc, key, idempotency_key)?;
    let limits = parse_optionals(alloc, scope, limit_key)?;
    let headers = parse_headers(alloc, headers)?;
    let (service, handler) = called;
    let (key, idempotency_key) = keys;
    let (scope, limit_key) = limits;
    Ok(Target {
        service,
        handler,
        key,
        idempotency_key,
        scope,
        limit_key,
        headers,
    })
}

#[tactic(auto, unfolding(crate::specs::TargetReader::id_of, script_lines::specs::LineReader::then_read))]
fn parse_id(alloc: Global, words: &[&[u8]]) -> Result<AttachInvocationTarget, LineError>
    ensures { Gives result (id_of (map (λ word. word.now) words.now)) }
{
    let [id] = words else {
        return Err(LineError::NotUnderstood);
    };
    let id = parse_text(alloc, id)?;
    Ok(AttachInvocationTarget::InvocationId(id))
}

#[tactic(auto, unfolding(crate::specs::TargetReader::workflow_of, script_lines::specs::LineReader::then_read))]
fn parse_workflow(alloc: Global, words: &[&[u8]]) -> Result<AttachInvocationTarget, LineError>
    ensures { Gives result (workflow_of (map (λ word. word.now) words.now)) }
{
    let [name, key, scope] = words else {
        return Err(LineError::NotUnderstood);
    };
    let (name, key) = parse_pair(alloc, name, key)?;
    let scope = parse_optional(alloc, scope)?;
    Ok(AttachInvocationTarget::WorkflowId { name, key, scope })
}

#[tactic(auto, unfolding(crate::specs::TargetReader::idempotent_of, script_lines::specs::LineReader::then_read))]
fn parse_idempotent(alloc: Global, words: &[&[u8]]) -> Result<AttachInvocationTarget, LineError>
    ensures { Gives result (idempotent_of (map (λ word. word.now) words.now)) }
{
    let [service, handler, idempotency_key, key, scope] = words else {
        return Err(LineError::NotUnderstood);
    };
    let (service_name, handler_name) = parse_pair(alloc, service, handler)?;
    let idempotency_key = parse_text(alloc, idempotency_key)?;
    let (service_key, scope) = parse_optionals(alloc, key, scope)?;
    Ok(AttachInvocationTarget::IdempotencyId {
        service_name,
        handler_name,
        idempotency_key,
        service_key,
        scope,
    })
}

/// Which invocation is attached to: `id ID`, `workflow NAME KEY SCOPE` or `idempotent SERVICE HANDLER IDEMPOTENCY KEY SCOPE`, of which the
/// scope, and the service's key, may be `none`.
#[tactic(auto, unfolding(crate::specs::TargetReader::attached_of, crate::specs::TargetReader::attached_by))]
pub fn parse_attached(alloc: Global, words: &[&[u8]]) -> Result<AttachInvocationTarget, LineError>
    ensures { Gives result (attached_of (map (λ word. word.now) words.now)) }
{
    let [kind, others @ ..] = words else {
        return Err(LineError::NotUnderstood);
    };
    if *kind == b"id".as_slice() {
        parse_id(alloc, others)
    } else if *kind == b"workflow".as_slice() {
        parse_workflow(alloc, others)
    } else if *kind == b"idempotent".as_slice() {
        parse_idempotent(alloc, others)
    } else {
        Err(LineError::NotUnderstood)
    }
}
