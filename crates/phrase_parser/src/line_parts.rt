//! Lines cut at the fixed texts that divide their parts.
ghost use Rattle.std.specs.Prelude.{◌≡◌, ◌&&◌, not, nat_eq, true, false, Some, None, MatchOption};
ghost use Rattle.std.specs.List.{starts_with};
ghost use Rattle.phrase_parser.specs.LineParts.{cut_at, is_quoted_behind};

/// What stands in a line before the first divider outside of quotes, and what stands behind that divider. `None` where
/// no divider stands outside of quotes.
pub fn cut_at<'a>(text: &'a [u8], divider: &[u8]) -> Option<(&'a [u8], &'a [u8])>
    ensures { MatchOption result (cut_at divider.now text.now ≡ None)
        (λ parts. cut_at divider.now text.now ≡ Some (parts.0.now, parts.1.now)) }
{
    let mut inside = false;
    let mut place = 0;
    while place < text.len() {
        if ends_part(inside, &text[place..], divider) {
            return Some((&text[..place], &text[place + divider.len()..]));
        }
        inside = is_quoted_behind(inside, text[place]);
        place += 1;
    }
    None
}

/// Whether a part of the line ends here: the divider stands here, outside of quotes.
fn ends_part(inside: bool, here: &[u8], divider: &[u8]) -> bool
    ensures { result ≡ (not inside && starts_with nat_eq here.now divider.now) }
{
    if has_another_first(here, divider) {
        return false;
    }
    !inside && here.starts_with(divider)
}

/// Whether a line has another byte here than the first one of the divider, so that no part of it ends here.
fn has_another_first(here: &[u8], divider: &[u8]) -> bool
    ensures { result ≡ true → starts_with nat_eq here.now divider.now ≡ false }
{
    let Some((first, _)) = divider.split_first() else {
        return false;
    };
    let Some((byte, _)) = here.split_first() else {
        return false;
    };
    first != byte
}

/// Whether what follows the byte of a line is inside of quotes.
fn is_quoted_behind(inside: bool, byte: u8) -> bool
    ensures { result ≡ is_quoted_behind inside byte }
{
    if byte == b'\'' { !inside } else { inside }
}
