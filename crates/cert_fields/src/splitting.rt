// Texts and lines at their separators.

ghost use Rattle.std.specs.Prelude.{◌≡◌, ◌==◌, ◌∷◌, ◌+◌, [], true, false, IfSome, IfNone, length};
ghost use Rattle.std.specs.List.{slice_split, position, before_first, after_first, list_any};
ghost use Rattle.cert_fields.specs.Parts.{is_byte, pieces_of, parts_of};
ghost use Rattle.cert_fields.specs.Fields.{behind, has_fields};

/// Where a byte stands first.
fn place_of_byte(bytes: &[u8], byte: u8) -> Option<usize>
    ensures { result ≡ position (is_byte byte) bytes.now }
{
    bytes.iter().position(|b| *b == byte)
}

/// What stands before a byte and behind it, where it stands first.
fn split_at(bytes: &[u8], byte: u8) -> Option<(&[u8], &[u8])>
    ensures parts { IfSome result (λ p. slice_split (is_byte byte) bytes.now ≡ p.0.now ∷ slice_split (is_byte byte) p.1.now) }
    ensures length { IfSome result (λ p. length bytes.now ≡ length p.0.now + 1 + length p.1.now) }
    ensures before { IfSome result (λ p. p.0.now ≡ before_first (is_byte byte) bytes.now) }
    ensures behind { IfSome result (λ p. p.1.now ≡ after_first (is_byte byte) bytes.now) }
    ensures there { IfSome result (λ p. list_any (is_byte byte) bytes.now ≡ true) }
    ensures whole { IfNone result (slice_split (is_byte byte) bytes.now ≡ bytes.now ∷ []) }
    ensures absent { IfNone result (list_any (is_byte byte) bytes.now ≡ false) }
    ensures alone { IfNone result (before_first (is_byte byte) bytes.now ≡ bytes.now) }
{
    match place_of_byte(bytes, byte) {
        Some(at) => Some((&bytes[..at], &bytes[at + 1..])),
        None => None,
    }
}

/// What stands before the first slash and behind it.
pub(crate) fn split_slash(bytes: &[u8]) -> Option<(&[u8], &[u8])>
    ensures before { IfSome result (λ p. p.0.now ≡ before_first (is_byte 47) bytes.now) }
    ensures behind { IfSome result (λ p. p.1.now ≡ after_first (is_byte 47) bytes.now) }
    ensures there { IfSome result (λ p. list_any (is_byte 47) bytes.now ≡ true) }
    ensures absent { IfNone result (list_any (is_byte 47) bytes.now ≡ false) }
    ensures alone { IfNone result (before_first (is_byte 47) bytes.now ≡ bytes.now) }
{
    split_at(bytes, b'/')
}

/// The first line, and what stands behind its line feed. None where there is no line feed.
pub fn split_line(text: &[u8]) -> Option<(&[u8], &[u8])>
    ensures pieces { IfSome result (λ p. pieces_of text.now ≡ p.0.now ∷ pieces_of p.1.now) }
    ensures length { IfSome result (λ p. length text.now ≡ length p.0.now + 1 + length p.1.now) }
    ensures whole { IfNone result (pieces_of text.now ≡ text.now ∷ []) }
{
    split_at(text, b'\n')
}

/// The part of a line before the first blank, and what stands behind it. None where there is no blank.
fn split_blank(line: &[u8]) -> Option<(&[u8], &[u8])>
    ensures parts { IfSome result (λ p. parts_of line.now ≡ p.0.now ∷ parts_of p.1.now) }
    ensures whole { IfNone result (parts_of line.now ≡ line.now ∷ []) }
{
    split_at(line, b' ')
}

/// The first part of a line.
pub fn first_part(line: &[u8]) -> &[u8]
    ensures { parts_of line.now ≡ result.now ∷ behind (parts_of line.now) }
{
    match split_blank(line) {
        Some((first, _)) => first,
        None => line,
    }
}

/// Whether a line has one part.
#[tactic(auto, using(crate::proofs::Pieces::not_one))]
pub fn is_one_part(line: &[u8]) -> bool
    ensures { result ≡ has_fields 0 (behind (parts_of line.now)) }
{
    match split_blank(line) {
        Some(_) => false,
        None => true,
    }
}

/// What stands behind the only blank of a line, unless that is nothing.
#[tactic(auto, using(crate::proofs::Pieces::not_two, crate::proofs::Pieces::one_empty, crate::proofs::Pieces::one_filled))]
pub fn second_part(line: &[u8]) -> Option<&[u8]>
    ensures some { IfSome result (λ f. behind (parts_of line.now) ≡ f.now ∷ []) }
    ensures filled { IfSome result (λ f. has_fields 1 (behind (parts_of line.now)) ≡ true) }
    ensures none { IfNone result (has_fields 1 (behind (parts_of line.now)) ≡ false) }
{
    let (_, rest) = split_blank(line)?;
    if rest.is_empty() {
        return None;
    }
    match split_blank(rest) {
        Some(_) => None,
        None => Some(rest),
    }
}

/// What stands between the two blanks of a line and behind them, unless one of the two is nothing.
#[tactic(auto, using(crate::proofs::Pieces::not_three, crate::proofs::Pieces::two_empty, crate::proofs::Pieces::two_filled))]
pub fn last_two_parts(line: &[u8]) -> Option<(&[u8], &[u8])>
    ensures some { IfSome result (λ p. behind (parts_of line.now) ≡ p.0.now ∷ p.1.now ∷ []) }
    ensures filled { IfSome result (λ p. has_fields 2 (behind (parts_of line.now)) ≡ true) }
    ensures none { IfNone result (has_fields 2 (behind (parts_of line.now)) ≡ false) }
{
    let (_, rest) = split_blank(line)?;
    let (second, third) = split_blank(rest)?;
    if second.is_empty() || third.is_empty() {
        return None;
    }
    match split_blank(third) {
        Some(_) => None,
        None => Some((second, third)),
    }
}
