// Secrets, in the arguments of calls and in returns (Secret Service API, "Secrets"): `(oayays)`, the session that
// encodes the secret, the parameters of its algorithm, the value and the content type.
ghost use Rattle.std.specs.Prelude.{◌≡◌, ◌<◌, ◌^◌, IfOk};
ghost use Rattle.kr_base.specs.Text.{IsText};
ghost use Rattle.dbus_marshal.specs.Wire.{AreBytes};
ghost use Rattle.secret_calls.specs.Outs.{IsSecret};

use kr_base::{Bytes, OutOfMemory, SessionId, Text};

/// A secret in the arguments of a call. Its parameters are dropped, since `plain` has none.
#[derive(Drop)]
pub struct Secret {
    /// The session, or None if the path given isn't a session's.
    pub session: Option<SessionId>,
    /// The value.
    pub value: Bytes,
    /// The content type.
    pub content: Text,
}

/// A secret in a return. Its parameters are empty.
#[derive(PartialEq, Eq, Drop)]
pub struct ReturnedSecret {
    /// The session.
    pub session: SessionId,
    /// The value.
    pub value: Bytes,
    /// The content type.
    pub content: Text,
}

/// An item with its secret.
#[derive(PartialEq, Eq, Drop)]
pub struct ItemSecret {
    /// The path of the item.
    pub item: Text,
    /// Its secret.
    pub secret: ReturnedSecret,
}

impl ReturnedSecret {
    /// A copy of the secret.
    pub fn copy(&self) -> Result<ReturnedSecret, OutOfMemory>
        ensures { IfOk result (λ copied. copied ≡ self.now) }
    {
        let value = self.value.copy()?;
        let content = self.content.copy()?;
        Ok(ReturnedSecret {
            session: self.session,
            value,
            content,
        })
    }
}

impl ItemSecret {
    /// A copy of the item and its secret.
    pub fn copy(&self) -> Result<ItemSecret, OutOfMemory>
        ensures { IfOk result (λ copied. copied ≡ self.now) }
    {
        let item = self.item.copy()?;
        let secret = self.secret.copy()?;
        Ok(ItemSecret { item, secret })
    }
}

// The number has 64 bits.
fn has_64_bits(number: u64)
    ensures { number < 2 ^ 64 }
{
    let _ = number;
}

// Each element is a byte.
fn are_bytes(bytes: &[u8])
    ensures { AreBytes bytes.now }
{
    let _ = bytes;
}

// The text has no zero byte and is UTF-8.
fn is_text(text: &Text)
    ensures { IsText text.now }
{
    let _ = text.as_bytes();
}

/// Proves from the types of a secret's parts that a return can contain it. It does nothing at run time.
pub fn secret_is_typed(secret: &ReturnedSecret)
    ensures { IsSecret secret.now }
{
    has_64_bits(secret.session.0);
    are_bytes(secret.value.as_slice());
    is_text(&secret.content);
}
