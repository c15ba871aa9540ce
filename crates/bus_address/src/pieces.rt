// A text that is cut at a separator.
ghost use Rattle.std.specs.Prelude.{◌≡◌, ◌≢◌, All, MatchOption};
ghost use Rattle.bus_address.specs.Pieces.{IsCut, before};

/// The bytes before and after the first separator. None if there is none.
pub fn cut(text: &[u8], separator: u8) -> Option<(&[u8], &[u8])>
    ensures { MatchOption result (All (λ byte. byte ≢ separator) text.now)
        (λ parts. IsCut separator text.now parts.0.now parts.1.now) }
{
    let end = text.iter().position(|byte| *byte == separator)?;
    Some((&text[..end], &text[end + 1..]))
}

/// The bytes before the first separator, or all if there is none.
#[tactic(auto, using(crate::proofs::PieceLemmas::before_cut, crate::proofs::PieceLemmas::before_none))]
pub fn front(text: &[u8], separator: u8) -> &[u8]
    ensures { result.now ≡ before separator text.now }
{
    match cut(text, separator) {
        Some((front, _)) => front,
        None => text,
    }
}
