// The values that calls return.
ghost use Rattle.std.specs.Prelude.{ℕ, List, ◌++◌, OnOk, decimal};
ghost use Rattle.dbus_types.specs.declared.complete_type.BasicType.TheVariants as basics;
ghost use Rattle.dbus_types.specs.ValueViews.{bit_of};
ghost use Rattle.dbus_types.specs.Values.{Val, Vals};
ghost use Rattle.dbus_marshal.specs.Putting.{put, puts};
ghost use Rattle.secret_calls.specs.Outs.{session_path, prompt_path, prompt_value, paths_value, secret_value, secrets_value, values_of};

use crate::out::Body;
use crate::secret::{ItemSecret, ReturnedSecret};
use dbus_marshal::{
    Put, PutValues, pad_to, put_array, put_bytes, put_long_path, put_path, put_text,
    put_text_variant, put_u32,
};
use itoa::Buffer;
use kr_base::{PromptId, SessionId, Text};

/// What comes before a session's number in its path.
const SESSIONS: &str = "/org/freedesktop/secrets/session/s";

/// What comes before a prompt's number in its path.
pub const PROMPTS: &str = "/org/freedesktop/secrets/prompt/p";

/// The path of no object, which is returned if no prompt is needed.
const NO_OBJECT: &str = "/";

/// Writes a BOOLEAN.
#[tactic(auto, unfolding(dbus_marshal::specs::Putting::put))]
pub fn put_truth<P: Put>(out: &mut P, truth: bool) -> Result<(), P::Refused>
    ensures { (before : List ℕ) → P.stands out.old before → OnOk result (P.stands out.new
        (put before (Val.number basics.Boolean (bit_of truth)))) }
{
    if truth {
        put_u32(out, 1)
    } else {
        put_u32(out, 0)
    }
}

// Writes a path that consists of a prefix and the digits of a number.
fn put_numbered_path<P: Put>(out: &mut P, front: &str, number: u64) -> Result<(), P::Refused>
    ensures { (before : List ℕ) → P.stands out.old before → OnOk result (P.stands out.new
        (put before (Val.text basics.ObjectPath (front.now ++ decimal number)))) }
{
    let mut buffer = Buffer::new();
    let digits = buffer.format(number);
    put_long_path(out, front.as_bytes(), digits.as_bytes())
}

// Writes the path of a session.
fn put_session_path<P: Put>(out: &mut P, session: SessionId) -> Result<(), P::Refused>
    ensures { (before : List ℕ) → P.stands out.old before → OnOk result (P.stands out.new
        (put before (Val.text basics.ObjectPath (session_path session.0)))) }
{
    put_numbered_path(out, SESSIONS, session.0)
}

/// Writes the path of a prompt.
pub fn put_prompt_path<P: Put>(out: &mut P, prompt: PromptId) -> Result<(), P::Refused>
    ensures { (before : List ℕ) → P.stands out.old before → OnOk result (P.stands out.new
        (put before (Val.text basics.ObjectPath (prompt_path prompt.0)))) }
{
    put_numbered_path(out, PROMPTS, prompt.0)
}

// Writes the path of the prompt that a call returns, if one is needed.
fn put_prompt<P: Put>(out: &mut P, prompt: Option<PromptId>) -> Result<(), P::Refused>
    ensures { (before : List ℕ) → P.stands out.old before
        → OnOk result (P.stands out.new (put before (prompt_value prompt))) }
{
    match prompt {
        Some(prompt) => put_prompt_path(out, prompt),
        None => put_path(out, NO_OBJECT.as_bytes()),
    }
}

/// Writes the values that OpenSession returns.
pub fn put_session<P: Put>(out: &mut P, session: SessionId) -> Result<(), P::Refused>
    ensures { (before : List ℕ) → P.stands out.old before
        → OnOk result (P.stands out.new (puts before (values_of (Body.Session session)))) }
{
    put_text_variant(out, b"")?;
    put_session_path(out, session)
}

// Paths, as the elements of an array.
#[derive(Clone, Copy)]
struct Paths<'a> {
    paths: &'a [Text],
}

impl PutValues for Paths<'_> {
    ghost use Rattle.secret_calls.specs.Outs.{path_values};

    ghost values = { λ it. path_values it.paths.now };

    fn put_to<P: Put>(&self, out: &mut P) -> Result<(), P::Refused> {
        for path in self.paths {
            put_path(out, path.as_bytes())?;
        }
        Ok(())
    }
}

/// Writes an array of paths.
pub fn put_paths<P: Put>(out: &mut P, paths: &[Text]) -> Result<(), P::Refused>
    ensures { (before : List ℕ) → P.stands out.old before
        → OnOk result (P.stands out.new (put before (paths_value paths.now))) }
{
    put_array(out, 4, &Paths { paths })
}

/// Writes the values that Service.SearchItems returns.
pub fn put_found<P: Put>(out: &mut P, unlocked: &[Text], locked: &[Text]) -> Result<(), P::Refused>
    ensures { (before : List ℕ) → P.stands out.old before → OnOk result (P.stands out.new
        (puts before (values_of (Body.Found unlocked.now locked.now)))) }
{
    put_paths(out, unlocked)?;
    put_paths(out, locked)
}

/// Writes the values that Lock and Unlock return.
pub fn put_objects_and_prompt<P: Put>(
    out: &mut P,
    objects: &[Text],
    prompt: Option<PromptId>,
) -> Result<(), P::Refused>
    ensures { (before : List ℕ) → P.stands out.old before → OnOk result (P.stands out.new
        (puts before (values_of (Body.ObjectsAndPrompt objects.now prompt)))) }
{
    put_paths(out, objects)?;
    put_prompt(out, prompt)
}

/// Writes the value that Collection.SearchItems returns.
pub fn put_objects<P: Put>(out: &mut P, objects: &[Text]) -> Result<(), P::Refused>
    ensures { (before : List ℕ) → P.stands out.old before
        → OnOk result (P.stands out.new (puts before (values_of (Body.Objects objects.now)))) }
{
    put_paths(out, objects)
}

/// Writes the values that CreateItem and CreateCollection return.
pub fn put_object_and_prompt<P: Put>(
    out: &mut P,
    object: &Text,
    prompt: Option<PromptId>,
) -> Result<(), P::Refused>
    ensures { (before : List ℕ) → P.stands out.old before → OnOk result (P.stands out.new
        (puts before (values_of (Body.ObjectAndPrompt object.now prompt)))) }
{
    put_path(out, object.as_bytes())?;
    put_prompt(out, prompt)
}

/// Writes the value that a Delete and ReadAlias return.
pub fn put_object<P: Put>(out: &mut P, object: &Text) -> Result<(), P::Refused>
    ensures { (before : List ℕ) → P.stands out.old before
        → OnOk result (P.stands out.new (puts before (values_of (Body.Object object.now)))) }
{
    put_path(out, object.as_bytes())
}

// Writes a secret.
fn put_secret_value<P: Put>(out: &mut P, secret: &ReturnedSecret) -> Result<(), P::Refused>
    ensures { (before : List ℕ) → P.stands out.old before
        → OnOk result (P.stands out.new (put before (secret_value secret.now))) }
{
    pad_to(out, 8)?;
    put_session_path(out, secret.session)?;
    put_bytes(out, b"")?;
    put_bytes(out, secret.value.as_slice())?;
    put_text(out, secret.content.as_bytes())
}

/// Writes the value that GetSecret returns.
pub fn put_secret<P: Put>(out: &mut P, secret: &ReturnedSecret) -> Result<(), P::Refused>
    ensures { (before : List ℕ) → P.stands out.old before
        → OnOk result (P.stands out.new (puts before (values_of (Body.Secret secret.now)))) }
{
    put_secret_value(out, secret)
}

// Writes an item and its secret.
#[tactic(auto, using(dbus_marshal::proofs::PutLemmas::entry_put))]
fn put_item_secret<P: Put>(out: &mut P, secret: &ItemSecret) -> Result<(), P::Refused>
    ensures { (before : List ℕ) → P.stands out.old before → OnOk result (P.stands out.new
        (put before (Val.entry (Val.text basics.ObjectPath secret.now.item)
        (secret_value secret.now.secret)))) }
{
    pad_to(out, 8)?;
    put_path(out, secret.item.as_bytes())?;
    put_secret_value(out, &secret.secret)
}

// Items with their secrets, as the elements of a dict.
#[derive(Clone, Copy)]
struct Secrets<'a> {
    secrets: &'a [ItemSecret],
}

impl PutValues for Secrets<'_> {
    ghost use Rattle.secret_calls.specs.Outs.{secret_values};

    ghost values = { λ it. secret_values it.secrets.now };

    fn put_to<P: Put>(&self, out: &mut P) -> Result<(), P::Refused> {
        for secret in self.secrets {
            put_item_secret(out, secret)?;
        }
        Ok(())
    }
}

/// Writes the value that GetSecrets returns.
pub fn put_secrets<P: Put>(out: &mut P, secrets: &[ItemSecret]) -> Result<(), P::Refused>
    ensures { (before : List ℕ) → P.stands out.old before
        → OnOk result (P.stands out.new (puts before (values_of (Body.Secrets secrets.now)))) }
{
    put_array(out, 8, &Secrets { secrets })
}
