// What the types of the arguments of calls guarantee, as facts that a contract can cite. The functions only read each
// field, and take no memory.
ghost use Rattle.std.specs.List.{AllByRecursion};
ghost use Rattle.kr_base.specs.Attributes.{IsInOrder};
ghost use Rattle.kr_names.specs.Path.{IsAliasName};
ghost use Rattle.keyring_file.specs.Known.{IsKnownPair};
ghost use Rattle.service_tables.specs.Sound.{AreAttributeTypes, AreItemTypes, AreSecretTypes, IsTypedAlias, IsTypedText};

use crate::objects::is_alias;
use keyring_text::known_bytes;
use kr_base::{AttrValue, Attributes, Bytes, Text};

fn known_pair(pair: &(Text, AttrValue))
    ensures { IsKnownPair pair.now }
{
    let _name = pair.0.as_str();
    match &pair.1 {
        AttrValue::Text(text) => {
            let _text = text.as_str();
        }
        AttrValue::Number(number) => {
            let _number = *number;
        }
    }
}

fn known_pairs(attributes: &Attributes)
    ensures ordered { IsInOrder attributes.now }
    ensures each { AllByRecursion IsKnownPair attributes.now }
{
    for pair in attributes.as_slice() {
        known_pair(pair);
    }
}

/// A law: what the type of a text guarantees, as a fact that has one proof at most. The call does nothing.
pub fn known_text(text: &Text)
    ensures { IsTypedText text.now }
{
    let _text = text.as_str();
}

/// A law: the name of an alias, as a fact that has one proof at most. The call does nothing.
pub fn known_alias(alias: &Text)
    requires { IsAliasName alias.now }
    ensures { IsTypedAlias alias.now }
{
    let _name = is_alias(alias);
}

/// A law: what the types of a label and of attributes guarantee. The call does nothing.
pub fn known_item(label: &Text, attributes: &Attributes)
    ensures { AreItemTypes label.now attributes.now }
{
    known_text(label);
    known_pairs(attributes);
}

/// A law: what the type of attributes guarantees. The call does nothing.
pub fn known_attributes(attributes: &Attributes)
    ensures { AreAttributeTypes attributes.now }
{
    known_pairs(attributes);
}

/// A law: what the types of a secret's value and of its content type guarantee. The call does nothing.
pub fn known_secret(value: &Bytes, content: &Text)
    ensures { AreSecretTypes value.now content.now }
{
    known_bytes(value.as_slice());
    known_text(content);
}
