// The arguments of calls, as they are written (D-Bus Specification, "Marshaling").
ghost use Rattle.std.specs.Prelude.{◌≡◌, ℕ, List, [], ◌++◌, OnOk, decimal};
ghost use Rattle.dbus_types.specs.declared.complete_type.BasicType.TheVariants as basics;
ghost use Rattle.dbus_types.specs.Types.{texts_of};
ghost use Rattle.dbus_types.specs.Values.{Val, Vals, tys_of};
ghost use Rattle.dbus_types.specs.ValueViews.{bit_of};
ghost use Rattle.dbus_marshal.specs.Putting.{put, puts};
ghost use Rattle.secret_calls.specs.Outs.{paths_value, property_text};
ghost use Rattle.call_wire.specs.Interfaces.{interface_name};
ghost use Rattle.client_core.specs.Arguments.{text_value, path_value, session_text, prompt_text, attribute_text, attribute_values, attributes_value, property_value, collection_properties, item_properties, given_secret, alias_text, own_interface, set_values, first_path, arguments_with};

use crate::asking::{collection_interface, item_interface, own_interface};
use dbus_marshal::{
    Put, PutValues, pad_to, put_array, put_bytes, put_long_path, put_path, put_signature, put_text,
    put_text_variant, put_u32, put_u64,
};
use itoa::Buffer;
use kr_base::{AttrValue, Attributes, Bytes, PromptId, SessionId, Text};
use kr_names::ObjectName;
use secret_calls::{AliasName, Call, Property, Secret};

const SESSIONS: &str = "/org/freedesktop/secrets/session/s";

const PROMPTS: &str = "/org/freedesktop/secrets/prompt/p";

const NOTHING: &str = "/";

// The names of the properties that a collection and an item are created with.
const COLLECTION_LABEL: &str = "org.freedesktop.Secret.Collection.Label";

const ITEM_LABEL: &str = "org.freedesktop.Secret.Item.Label";

const ITEM_ATTRIBUTES: &str = "org.freedesktop.Secret.Item.Attributes";

// Writes a path that consists of a prefix and the digits of a number.
fn put_numbered_path<P: Put>(out: &mut P, front: &str, number: u64) -> Result<(), P::Refused>
    ensures { (before : List ℕ) → P.stands out.old before → OnOk result (P.stands out.new
        (put before (path_value (front.now ++ decimal number)))) }
{
    let mut buffer = Buffer::new();
    let digits = buffer.format(number);
    put_long_path(out, front.as_bytes(), digits.as_bytes())
}

// Writes the path of a session, or that of no object.
fn put_session<P: Put>(out: &mut P, session: Option<SessionId>) -> Result<(), P::Refused>
    ensures { (before : List ℕ) → P.stands out.old before → OnOk result (P.stands out.new
        (put before (path_value (session_text session)))) }
{
    match session {
        Some(session) => put_numbered_path(out, SESSIONS, session.0),
        None => put_path(out, NOTHING.as_bytes()),
    }
}

// Writes the path of a prompt, or that of no object.
fn put_prompt<P: Put>(out: &mut P, prompt: Option<PromptId>) -> Result<(), P::Refused>
    ensures { (before : List ℕ) → P.stands out.old before → OnOk result (P.stands out.new
        (put before (path_value (prompt_text prompt)))) }
{
    match prompt {
        Some(prompt) => put_numbered_path(out, PROMPTS, prompt.0),
        None => put_path(out, NOTHING.as_bytes()),
    }
}

// Writes a BOOLEAN.
#[tactic(auto, unfolding(dbus_marshal::specs::Putting::put))]
fn put_truth<P: Put>(out: &mut P, truth: bool) -> Result<(), P::Refused>
    ensures { (before : List ℕ) → P.stands out.old before → OnOk result (P.stands out.new
        (put before (Val.number basics.Boolean (bit_of truth)))) }
{
    if truth {
        put_u32(out, 1)
    } else {
        put_u32(out, 0)
    }
}

// Paths, as the elements of an array.
#[derive(Clone, Copy)]
struct Paths<'a> {
    paths: &'a [Text],
}

impl PutValues for Paths<'_> {
    ghost use Rattle.secret_calls.specs.Outs.{path_values};

    ghost values = { λ it. path_values it.paths.now };

    fn put_to<P: Put>(&self, out: &mut P) -> Result<(), P::Refused> {
        for path in self.paths {
            put_path(out, path.as_bytes())?;
        }
        Ok(())
    }
}

// Writes an array of paths.
fn put_paths<P: Put>(out: &mut P, paths: &[Text]) -> Result<(), P::Refused>
    ensures { (before : List ℕ) → P.stands out.old before
        → OnOk result (P.stands out.new (put before (paths_value paths.now))) }
{
    put_array(out, 4, &Paths { paths })
}

// The text of an attribute's value.
fn attribute_text(value: &AttrValue) -> &str
    ensures { result.now ≡ attribute_text value.now }
{
    match value {
        AttrValue::Text(text) => text.as_str(),
        AttrValue::Number(_) => "",
    }
}

// Writes an attribute, as an entry of a dict.
#[tactic(auto, using(dbus_marshal::proofs::PutLemmas::entry_put))]
fn put_attribute<P: Put>(out: &mut P, name: &Text, value: &AttrValue) -> Result<(), P::Refused>
    ensures { (before : List ℕ) → P.stands out.old before → OnOk result (P.stands out.new
        (put before (Val.entry (text_value name.now) (text_value (attribute_text value.now))))) }
{
    pad_to(out, 8)?;
    put_text(out, name.as_bytes())?;
    put_text(out, attribute_text(value).as_bytes())
}

// Attributes, as the elements of a dict.
#[derive(Clone, Copy)]
struct Pairs<'a> {
    pairs: &'a [(Text, AttrValue)],
}

impl PutValues for Pairs<'_> {
    ghost use Rattle.client_core.specs.Arguments.{attribute_values};

    ghost values = { λ it. attribute_values it.pairs.now };

    fn put_to<P: Put>(&self, out: &mut P) -> Result<(), P::Refused> {
        for (name, value) in self.pairs {
            put_attribute(out, name, value)?;
        }
        Ok(())
    }
}

// Writes attributes.
fn put_attributes<P: Put>(out: &mut P, attributes: &Attributes) -> Result<(), P::Refused>
    ensures { (before : List ℕ) → P.stands out.old before → OnOk result (P.stands out.new
        (put before (attributes_value attributes.now))) }
{
    put_array(
        out,
        8,
        &Pairs {
            pairs: attributes.as_slice(),
        },
    )
}

// Writes a property whose value is a text.
#[tactic(auto, using(dbus_marshal::proofs::PutLemmas::entry_put))]
fn put_text_property<P: Put>(out: &mut P, name: &str, text: &Text) -> Result<(), P::Refused>
    ensures { (before : List ℕ) → P.stands out.old before → OnOk result (P.stands out.new
        (put before (property_value name.now (text_value text.now)))) }
{
    pad_to(out, 8)?;
    put_text(out, name.as_bytes())?;
    put_text_variant(out, text.as_bytes())
}

// Writes attributes as a variant.
#[tactic(auto, using(dbus_marshal::proofs::PutLemmas::variant_put))]
fn put_attributes_variant<P: Put>(out: &mut P, attributes: &Attributes) -> Result<(), P::Refused>
    ensures { (before : List ℕ) → P.stands out.old before → OnOk result (P.stands out.new
        (put before (Val.variant (attributes_value attributes.now)))) }
{
    put_signature(out, b"a{ss}")?;
    put_attributes(out, attributes)
}

// Writes a property whose value is attributes.
#[tactic(auto, using(dbus_marshal::proofs::PutLemmas::entry_put))]
fn put_attributes_property<P: Put>(
    out: &mut P,
    name: &str,
    attributes: &Attributes,
) -> Result<(), P::Refused>
    ensures { (before : List ℕ) → P.stands out.old before → OnOk result (P.stands out.new
        (put before (property_value name.now (attributes_value attributes.now)))) }
{
    pad_to(out, 8)?;
    put_text(out, name.as_bytes())?;
    put_attributes_variant(out, attributes)
}

// The properties of a new collection, as the elements of a dict.
#[derive(Clone, Copy)]
struct NewCollection<'a> {
    label: &'a Text,
}

impl PutValues for NewCollection<'_> {
    ghost use Rattle.dbus_types.specs.Values.{Vals};
    ghost use Rattle.call_wire.specs.Service as service;
    ghost use Rattle.client_core.specs.Arguments.{text_value, property_value};

    ghost values = { λ it.
        Vals.more (property_value service.label_name (text_value it.label.now)) Vals.end };

    fn put_to<P: Put>(&self, out: &mut P) -> Result<(), P::Refused> {
        put_text_property(out, COLLECTION_LABEL, self.label)
    }
}

// Writes the properties of a new collection.
fn put_collection_properties<P: Put>(out: &mut P, label: &Text) -> Result<(), P::Refused>
    ensures { (before : List ℕ) → P.stands out.old before → OnOk result (P.stands out.new
        (put before (collection_properties label.now))) }
{
    put_array(out, 8, &NewCollection { label })
}

// The properties of a new item, as the elements of a dict.
#[derive(Clone, Copy)]
struct NewItem<'a> {
    label: &'a Text,
    attributes: &'a Attributes,
}

impl PutValues for NewItem<'_> {
    ghost use Rattle.dbus_types.specs.Values.{Vals};
    ghost use Rattle.call_wire.specs.Collection as collection;
    ghost use Rattle.client_core.specs.Arguments.{text_value, property_value, attributes_value};

    ghost values = { λ it.
        Vals.more (property_value collection.label_name (text_value it.label.now))
        (Vals.more (property_value collection.attributes_name (attributes_value it.attributes.now))
        Vals.end) };

    fn put_to<P: Put>(&self, out: &mut P) -> Result<(), P::Refused> {
        put_text_property(out, ITEM_LABEL, self.label)?;
        put_attributes_property(out, ITEM_ATTRIBUTES, self.attributes)
    }
}

// Writes the properties of a new item.
fn put_item_properties<P: Put>(
    out: &mut P,
    label: &Text,
    attributes: &Attributes,
) -> Result<(), P::Refused>
    ensures { (before : List ℕ) → P.stands out.old before → OnOk result (P.stands out.new
        (put before (item_properties label.now attributes.now))) }
{
    put_array(out, 8, &NewItem { label, attributes })
}

// Writes a secret.
fn put_secret<P: Put>(out: &mut P, secret: &Secret) -> Result<(), P::Refused>
    ensures { (before : List ℕ) → P.stands out.old before → OnOk result (P.stands out.new
        (put before (given_secret secret.now))) }
{
    pad_to(out, 8)?;
    put_session(out, secret.session)?;
    put_bytes(out, b"")?;
    put_bytes(out, secret.value.as_slice())?;
    put_text(out, secret.content.as_bytes())
}

// Writes the arguments of OpenSession.
fn put_open_session<P: Put>(out: &mut P, algorithm: &Text) -> Result<(), P::Refused>
    ensures { (before : List ℕ) → P.stands out.old before → OnOk result (P.stands out.new
        (puts before (Vals.more (text_value algorithm.now)
        (Vals.more (Val.variant (text_value [])) Vals.end)))) }
{
    put_text(out, algorithm.as_bytes())?;
    put_text_variant(out, b"")
}

// The text of an alias, which is empty if there is none.
fn alias_text(alias: &Option<AliasName>) -> &str
    ensures { result.now ≡ alias_text alias.now }
{
    match alias {
        Some(alias) => alias.as_text().as_str(),
        None => "",
    }
}

// Writes the arguments of CreateCollection.
fn put_create_collection<P: Put>(
    out: &mut P,
    label: &Text,
    alias: &Option<AliasName>,
) -> Result<(), P::Refused>
    ensures { (before : List ℕ) → P.stands out.old before → OnOk result (P.stands out.new
        (puts before (Vals.more (collection_properties label.now)
        (Vals.more (text_value (alias_text alias.now)) Vals.end)))) }
{
    put_collection_properties(out, label)?;
    put_text(out, alias_text(alias).as_bytes())
}

// Writes the arguments of GetSecrets.
fn put_get_secrets<P: Put>(
    out: &mut P,
    paths: &[Text],
    session: Option<SessionId>,
) -> Result<(), P::Refused>
    ensures { (before : List ℕ) → P.stands out.old before → OnOk result (P.stands out.new
        (puts before (Vals.more (paths_value paths.now)
        (Vals.more (path_value (session_text session)) Vals.end)))) }
{
    put_paths(out, paths)?;
    put_session(out, session)
}

// The first path, or that of no object.
fn first_path(paths: &[Text]) -> &str
    ensures { result.now ≡ first_path paths.now }
{
    match paths.split_first() {
        Some((path, _)) => path.as_str(),
        None => NOTHING,
    }
}

// Writes the arguments of SetAlias.
fn put_set_alias<P: Put>(out: &mut P, alias: &AliasName, paths: &[Text]) -> Result<(), P::Refused>
    ensures { (before : List ℕ) → P.stands out.old before → OnOk result (P.stands out.new
        (puts before (Vals.more (text_value alias.now)
        (Vals.more (path_value (first_path paths.now)) Vals.end)))) }
{
    put_text(out, alias.as_text().as_bytes())?;
    put_path(out, first_path(paths).as_bytes())
}

// Writes the arguments of CreateItem.
fn put_create_item<P: Put>(
    out: &mut P,
    label: &Text,
    attributes: &Attributes,
    secret: &Secret,
    replace: bool,
) -> Result<(), P::Refused>
    ensures { (before : List ℕ) → P.stands out.old before → OnOk result (P.stands out.new
        (puts before (Vals.more (item_properties label.now attributes.now)
        (Vals.more (given_secret secret.now)
        (Vals.more (Val.number basics.Boolean (bit_of replace)) Vals.end))))) }
{
    put_item_properties(out, label, attributes)?;
    put_secret(out, secret)?;
    put_truth(out, replace)
}

// Writes the arguments of Get.
fn put_get<P: Put>(out: &mut P, object: &ObjectName, property: Property) -> Result<(), P::Refused>
    ensures { (before : List ℕ) → P.stands out.old before → OnOk result (P.stands out.new
        (puts before (Vals.more (text_value (interface_name (own_interface object.now)))
        (Vals.more (text_value (property_text property)) Vals.end)))) }
{
    put_text(out, own_interface(object).as_bytes())?;
    put_text(out, property.as_str().as_bytes())
}

// Writes the arguments of Set of a property whose value is a text.
fn put_set_text<P: Put>(
    out: &mut P,
    interface: &str,
    property: Property,
    text: &Text,
) -> Result<(), P::Refused>
    ensures { (before : List ℕ) → P.stands out.old before → OnOk result (P.stands out.new
        (puts before (set_values interface.now (property_text property)
        (text_value text.now)))) }
{
    put_text(out, interface.as_bytes())?;
    put_text(out, property.as_str().as_bytes())?;
    put_text_variant(out, text.as_bytes())
}

// Writes the arguments of Set of a property whose value is attributes.
fn put_set_attributes<P: Put>(
    out: &mut P,
    interface: &str,
    property: Property,
    attributes: &Attributes,
) -> Result<(), P::Refused>
    ensures { (before : List ℕ) → P.stands out.old before → OnOk result (P.stands out.new
        (puts before (set_values interface.now (property_text property)
        (attributes_value attributes.now)))) }
{
    put_text(out, interface.as_bytes())?;
    put_text(out, property.as_str().as_bytes())?;
    put_attributes_variant(out, attributes)
}

// Writes the arguments of Answer.
fn put_answer<P: Put>(
    out: &mut P,
    prompt: Option<PromptId>,
    round: u64,
    password: &Bytes,
) -> Result<(), P::Refused>
    ensures { (before : List ℕ) → P.stands out.old before → OnOk result (P.stands out.new
        (puts before (Vals.more (path_value (prompt_text prompt))
        (Vals.more (Val.number basics.Uint64 round) (Vals.more (Val.bytes password.now)
        Vals.end))))) }
{
    put_prompt(out, prompt)?;
    put_u64(out, round)?;
    put_bytes(out, password.as_slice())
}

// Writes the arguments of Refuse.
fn put_refuse<P: Put>(out: &mut P, prompt: Option<PromptId>, round: u64) -> Result<(), P::Refused>
    ensures { (before : List ℕ) → P.stands out.old before → OnOk result (P.stands out.new
        (puts before (Vals.more (path_value (prompt_text prompt))
        (Vals.more (Val.number basics.Uint64 round) Vals.end)))) }
{
    put_prompt(out, prompt)?;
    put_u64(out, round)
}

/// A call with the paths of the objects among its arguments.
#[derive(Clone, Copy)]
pub struct Asking<'a> {
    /// The call.
    pub call: &'a Call,
    /// The paths.
    pub paths: &'a [Text],
}

impl PutValues for Asking<'_> {
    ghost use Rattle.client_core.specs.Arguments.{arguments_with};

    ghost values = { λ it. arguments_with it.call.now it.paths.now };

    fn put_to<P: Put>(&self, out: &mut P) -> Result<(), P::Refused> {
        match self.call {
            Call::Ping => Ok(()),
            Call::OpenSession { algorithm } => put_open_session(out, algorithm),
            Call::CloseSession { .. } => Ok(()),
            Call::CreateCollection { label, alias } => put_create_collection(out, label, alias),
            Call::SearchItems { wanted } => put_attributes(out, wanted),
            Call::Unlock { .. } => put_paths(out, self.paths),
            Call::Lock { .. } => put_paths(out, self.paths),
            Call::GetSecrets { session, .. } => put_get_secrets(out, self.paths, *session),
            Call::ReadAlias { name } => put_text(out, name.as_bytes()),
            Call::SetAlias { alias, .. } => put_set_alias(out, alias, self.paths),
            Call::SearchCollection { wanted, .. } => put_attributes(out, wanted),
            Call::CreateItem {
                label,
                attributes,
                secret,
                replace,
                ..
            } => put_create_item(out, label, attributes, secret, *replace),
            Call::DeleteCollection { .. } => Ok(()),
            Call::ChangePassword { .. } => Ok(()),
            Call::DeleteItem { .. } => Ok(()),
            Call::GetSecret { session, .. } => put_session(out, *session),
            Call::SetSecret { secret, .. } => put_secret(out, secret),
            Call::Get { object, property } => put_get(out, object, *property),
            Call::GetAll { object, .. } => put_text(out, own_interface(object).as_bytes()),
            Call::SetCollectionLabel { label, .. } => {
                put_set_text(out, collection_interface(), Property::Label, label)
            }
            Call::SetItemLabel { label, .. } => {
                put_set_text(out, item_interface(), Property::Label, label)
            }
            Call::SetAttributes { attributes, .. } => {
                put_set_attributes(out, item_interface(), Property::Attributes, attributes)
            }
            Call::Prompt { .. } => put_text(out, b""),
            Call::Dismiss { .. } => Ok(()),
            Call::Register => Ok(()),
            Call::Unregister => Ok(()),
            Call::Answer {
                prompt,
                round,
                password,
            } => put_answer(out, *prompt, *round, password),
            Call::Refuse { prompt, round } => put_refuse(out, *prompt, *round),
        }
    }
}

/// The signature of the call's arguments.
pub fn signature_of(call: &Call) -> &'static str
    ensures { (paths : List (List ℕ))
        → result.now ≡ texts_of (tys_of (arguments_with call.now paths)) }
{
    match call {
        Call::Ping => "",
        Call::OpenSession { .. } => "sv",
        Call::CloseSession { .. } => "",
        Call::CreateCollection { .. } => "a{sv}s",
        Call::SearchItems { .. } => "a{ss}",
        Call::Unlock { .. } => "ao",
        Call::Lock { .. } => "ao",
        Call::GetSecrets { .. } => "aoo",
        Call::ReadAlias { .. } => "s",
        Call::SetAlias { .. } => "so",
        Call::SearchCollection { .. } => "a{ss}",
        Call::CreateItem { .. } => "a{sv}(oayays)b",
        Call::DeleteCollection { .. } => "",
        Call::ChangePassword { .. } => "",
        Call::DeleteItem { .. } => "",
        Call::GetSecret { .. } => "o",
        Call::SetSecret { .. } => "(oayays)",
        Call::Get { .. } => "ss",
        Call::GetAll { .. } => "s",
        Call::SetCollectionLabel { .. } => "ssv",
        Call::SetItemLabel { .. } => "ssv",
        Call::SetAttributes { .. } => "ssv",
        Call::Prompt { .. } => "s",
        Call::Dismiss { .. } => "",
        Call::Register => "",
        Call::Unregister => "",
        Call::Answer { .. } => "otay",
        Call::Refuse { .. } => "ot",
    }
}
