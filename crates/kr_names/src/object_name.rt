ghost use Rattle.std.specs.Prelude.{◌≡◌, ◌↔◌, IsTrue, IfOk};
ghost use Rattle.kr_names.specs.Path.{IsAliasName, HasPath};

use kr_base::{ItemId, OutOfMemory, PromptId, SessionId, Stem, Text};

/// The most bytes of the name of an alias.
const ALIAS_LIMIT: usize = 64;

/// What a path names: an object of the service, which need not exist.
#[derive(Debug, Drop, PartialEq, Eq, PartialOrd, Ord)]
pub enum ObjectName {
    /// No object: the path `/`.
    Nothing,
    /// The service itself.
    Service,
    /// The agent, which asks for passwords.
    Agent,
    /// A collection.
    Collection(Stem),
    /// An item of a collection.
    Item(Stem, ItemId),
    /// An alias of a collection.
    Alias(Text),
    /// A session.
    Session(SessionId),
    /// A prompt.
    Prompt(PromptId),
}

/// Whether the text can be the name of an alias: 1 to 64 letters, digits and `_`.
pub fn is_alias_name(name: &str) -> bool
    ensures { IsTrue result ↔ IsAliasName name.now }
{
    let bytes = name.as_bytes();
    !bytes.is_empty()
        && bytes.len() <= ALIAS_LIMIT
        && bytes
            .iter()
            .all(|byte| byte.is_ascii_alphanumeric() || *byte == b'_')
}

impl ObjectName {
    /// Whether the name has a path: the number of a session or a prompt isn't 0, and an alias has
    /// the name of an alias.
    pub fn has_path(&self) -> bool
        ensures { IsTrue result ↔ HasPath self.now }
    {
        match self {
            ObjectName::Alias(name) => is_alias_name(name.as_str()),
            ObjectName::Session(session) => session.0 != 0,
            ObjectName::Prompt(prompt) => prompt.0 != 0,
            _ => true,
        }
    }

    /// A copy of the name.
    pub fn copy(&self) -> Result<ObjectName, OutOfMemory>
        ensures { IfOk result (λ copied. copied ≡ self.now) }
    {
        Ok(match self {
            ObjectName::Nothing => ObjectName::Nothing,
            ObjectName::Service => ObjectName::Service,
            ObjectName::Agent => ObjectName::Agent,
            ObjectName::Collection(stem) => ObjectName::Collection(stem.copy()?),
            ObjectName::Item(stem, item) => ObjectName::Item(stem.copy()?, *item),
            ObjectName::Alias(name) => ObjectName::Alias(name.copy()?),
            ObjectName::Session(session) => ObjectName::Session(*session),
            ObjectName::Prompt(prompt) => ObjectName::Prompt(*prompt),
        })
    }
}
