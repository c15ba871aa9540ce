// The interface of the agent, which asks for passwords (docs/SERVICE.md, "Interfaces").
ghost use Rattle.std.specs.Prelude.{◌≡◌, IfOk};
ghost use Rattle.dbus_types.specs.ValueViews.{value_of, values_of};
ghost use Rattle.call_wire.specs.Agent.{answered_with, answer, refused_with, refuse};

use crate::OutOfMemory;
use call_arguments::{bytes_in, long_in, prompt_in, three_in, two_in};
use dbus_types::Value;
use secret_calls::{Call, CallFault};
use std::alloc::Global;

/// The name of the interface.
pub const INTERFACE: &str = "org.keyringd.Agent1";

// Answer with these three arguments.
fn answered_with(
    alloc: Global,
    prompt: &Value,
    round: &Value,
    password: &Value,
) -> Result<Option<Call>, OutOfMemory>
    ensures { IfOk result (λ call. call ≡ answered_with
        (value_of prompt.now, value_of round.now, value_of password.now)) }
{
    let Some(prompt) = prompt_in(alloc, prompt)? else {
        return Ok(None);
    };
    let Some(round) = long_in(round) else {
        return Ok(None);
    };
    match bytes_in(password) {
        Some(password) => {
            let password = password.copy()?;
            Ok(Some(Call::Answer {
                prompt,
                round,
                password,
            }))
        }
        None => Ok(None),
    }
}

/// Reads a call of Answer.
pub fn answer(alloc: Global, values: &[Value]) -> Result<Result<Call, CallFault>, OutOfMemory>
    ensures { IfOk result (λ call. call ≡ answer (values_of values.now)) }
{
    let Some((prompt, round, password)) = three_in(values) else {
        return Ok(Err(CallFault::InvalidArgs));
    };
    match answered_with(alloc, prompt, round, password)? {
        Some(call) => Ok(Ok(call)),
        None => Ok(Err(CallFault::InvalidArgs)),
    }
}

// Refuse with these two arguments.
fn refused_with(alloc: Global, prompt: &Value, round: &Value) -> Result<Option<Call>, OutOfMemory>
    ensures { IfOk result (λ call. call ≡ refused_with (value_of prompt.now, value_of round.now)) }
{
    let Some(prompt) = prompt_in(alloc, prompt)? else {
        return Ok(None);
    };
    match long_in(round) {
        Some(round) => Ok(Some(Call::Refuse { prompt, round })),
        None => Ok(None),
    }
}

/// Reads a call of Refuse.
pub fn refuse(alloc: Global, values: &[Value]) -> Result<Result<Call, CallFault>, OutOfMemory>
    ensures { IfOk result (λ call. call ≡ refuse (values_of values.now)) }
{
    let Some((prompt, round)) = two_in(values) else {
        return Ok(Err(CallFault::InvalidArgs));
    };
    match refused_with(alloc, prompt, round)? {
        Some(call) => Ok(Ok(call)),
        None => Ok(Err(CallFault::InvalidArgs)),
    }
}
