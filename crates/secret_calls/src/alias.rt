ghost use Rattle.std.specs.Prelude.{◌≡◌, ℕ, List};
ghost use Rattle.dbus_framing.specs.Headers.{where_is};
ghost use Rattle.kr_names.specs.Naming.{is_alias};
ghost use Rattle.kr_names.specs.Path.{IsAliasName};

use kr_base::Text;
use kr_names::is_alias_name;
use std::marker::Model;

/// The name that an alias may be set under: 1 to 64 letters, digits and `_` (docs/SERVICE.md, "Names and
/// paths"). A contract sees the list of its bytes.
#[derive(Drop)]
pub struct AliasName {
    text: Text,
}

impl Model for AliasName {
    ghost Value = { List ℕ };

    ghost view = { λ a. a.text };

    ghost invariant = { λ a. IsAliasName a.text };
}

impl AliasName {
    /// The text as the name of an alias. It takes no memory.
    ///
    /// None if the text isn't 1 to 64 letters, digits and `_`.
    pub fn from_text(text: Text) -> Option<AliasName>
        ensures { result ≡ where_is (is_alias text) text }
    {
        if !is_alias_name(text.as_str()) {
            return None;
        }
        Some(AliasName { text })
    }

    /// The name, borrowed as a text.
    pub fn as_text(&self) -> &Text
        ensures value { result.now ≡ self.now }
        ensures name { IsAliasName self.now }
    {
        &self.text
    }

    /// The name as a text. It takes no memory.
    pub fn into_text(self) -> Text
        ensures value { result ≡ self }
        ensures name { IsAliasName self }
    {
        self.text
    }
}
