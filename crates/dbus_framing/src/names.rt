ghost use Rattle.std.specs.Prelude.{◌≡◌, ◌==◌, ◌&&◌, ◌||◌, not, false, length};
ghost use Rattle.std.specs.Char.{is_ascii_digit};
ghost use Rattle.std.specs.List.{list_any};
ghost use Rattle.dbus_types.specs.Paths.{is_element_code};
ghost use Rattle.dbus_framing.specs.Names.{is_member_name, is_interface_name, are_name_elements, has_dot};

/// The most bytes of a name (D-Bus Specification, "Valid Names").
const NAME_LIMIT: usize = 255;

/// Whether the bytes are the name of a method or a signal: one element of `[A-Za-z0-9_]` that doesn't
/// begin with a digit, of at most 255 bytes (D-Bus Specification, "Valid Names").
pub fn is_member_name(bytes: &[u8]) -> bool
    ensures { result ≡ is_member_name bytes.now }
{
    bytes.len() <= NAME_LIMIT && !has_dot(bytes) && are_elements(bytes)
}

/// Whether the bytes are the name of an interface or an error: two or more such elements, joined by
/// dots, of at most 255 bytes (D-Bus Specification, "Valid Names").
pub fn is_interface_name(bytes: &[u8]) -> bool
    ensures { result ≡ is_interface_name bytes.now }
{
    bytes.len() <= NAME_LIMIT && has_dot(bytes) && are_elements(bytes)
}

fn has_dot(bytes: &[u8]) -> bool
    ensures { result ≡ has_dot bytes.now }
{
    bytes.iter().any(|code| *code == b'.')
}

// An element begins at the start and after each dot, and none is empty.
fn are_elements(bytes: &[u8]) -> bool
    ensures { result ≡ are_name_elements false bytes.now }
{
    let mut is_begun = false;
    let mut left = bytes;
    while let Some((code, rest)) = left.split_first() {
        if *code == b'.' {
            if !is_begun {
                return false;
            }
            is_begun = false;
        } else {
            if !is_next(is_begun, *code) {
                return false;
            }
            is_begun = true;
        }
        left = rest;
    }
    is_begun
}

// Whether the code continues an element, or begins one.
fn is_next(is_begun: bool, code: u8) -> bool
    ensures { result ≡ (is_begun || not (is_ascii_digit code)) && is_element_code code }
{
    (is_begun || !code.is_ascii_digit()) && (code.is_ascii_alphanumeric() || code == b'_')
}
