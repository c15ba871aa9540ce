// Labels of collections.
ghost use Rattle.std.specs.Prelude.{◌≡◌, [], IfOk};
ghost use Rattle.secret_calls.specs.Outs.{shown_label};

use kr_base::{OutOfMemory, Text};
use std::alloc::Global;

/// The most bytes of a label in Ask.
const MOST_LABEL: usize = 1_024;

/// The empty text, in place of a label that isn't given or isn't shown.
pub fn no_label(alloc: Global) -> Text
    ensures { result ≡ [] }
{
    match Text::from_utf8(Vec::new(alloc)) {
        Some(text) => text,
        None => unreachable!(),
    }
}

/// A label as Ask contains it: the empty text in place of one of more than 1,024 bytes.
pub fn shown_label(alloc: Global, label: &Text) -> Result<Text, OutOfMemory>
    ensures { IfOk result (λ shown. shown ≡ shown_label label.now) }
{
    if label.as_bytes().len() <= MOST_LABEL {
        return label.copy();
    }
    Ok(no_label(alloc))
}
