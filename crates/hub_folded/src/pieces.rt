//! Whether it is known what a pattern folds to in Unicode mode.
ghost use Rattle.std.specs.Prelude.{◌≡◌, ◌&&◌, ◌||◌, ◌==◌, nat_lt, not, false, IfOk};
ghost use Rattle.std.specs.List.{list_all, list_any};
ghost use Rattle.hub_unison.specs.Matching.{is_odd, is_unknown};
ghost use Rattle.hub_folded.specs.Fold.{is_upper};
ghost use Rattle.hub_folded.specs.Lines as lines;
ghost use Rattle.hub_folded.specs.Pieces as pieces;
ghost use Rattle.hub_folded.specs.Table.{knows_character, unicode};

use crate::fold::{is_bare_letter, is_known, stands};
use hub_glob::{PathSpec, Piece};
use std::alloc::AllocError;

/// Returns whether it is known what each choice of a specification folds to.
pub(crate) fn knows_spec(spec: &PathSpec) -> Result<bool, AllocError>
    ensures { IfOk result (λ b. b ≡ lines.knows_spec unicode spec.now) }
{
    let choices = spec.choices()?;
    Ok(
        choices
            .as_slice()
            .iter()
            .all(|choice| knows_pieces(choice.as_slice())),
    )
}

fn knows_pieces(pieces: &[Piece]) -> bool
    ensures { result ≡ lines.knows_pieces unicode false pieces.now }
{
    let mut bare = false;
    for piece in pieces {
        if !piece_stands(piece, bare) {
            return false;
        }
        bare = is_bare(piece);
    }
    true
}

/// Returns whether a piece is known, and follows a bare letter if it is a mark.
fn piece_stands(piece: &Piece, bare: bool) -> bool
    ensures { result ≡ pieces.piece_stands bare piece.now }
{
    match piece {
        Piece::Lit(c) => stands(*c, bare),
        Piece::Any => true,
        Piece::Run => true,
        Piece::OneOf(set) => knows_set(set.as_slice()),
    }
}

fn is_bare(piece: &Piece) -> bool
    ensures { result ≡ pieces.is_bare_piece piece.now }
{
    match piece {
        Piece::Lit(c) => is_bare_letter(*c),
        Piece::Any => false,
        Piece::Run => false,
        Piece::OneOf(_) => false,
    }
}

fn knows_set(set: &[char]) -> bool
    ensures { result ≡ pieces.set_stands set.now }
{
    are_plain(set) && !(has_upper(set) && has_sign(set))
}

fn are_plain(set: &[char]) -> bool
    ensures { result ≡ list_all (λ c. nat_lt c 128 && knows_character c && not (is_odd c)) set.now }
{
    set.iter().all(|c| is_plain(*c))
}

fn is_plain(c: char) -> bool
    ensures { result ≡ (nat_lt c 128 && knows_character c && not (is_odd c)) }
{
    c.is_ascii() && is_known(c) && !is_odd(c)
}

fn has_upper(set: &[char]) -> bool
    ensures { result ≡ list_any is_upper set.now }
{
    set.iter().any(|c| is_upper(*c))
}

fn is_upper(c: char) -> bool
    ensures { result ≡ is_upper c }
{
    'A' <= c && c <= 'Z'
}

/// Returns whether the set has a `?` or a `@`, which may begin a range to a capital letter.
fn has_sign(set: &[char]) -> bool
    ensures { result ≡ list_any (λ c. c == 63 || c == 64) set.now }
{
    set.iter().any(|c| *c == '?' || *c == '@')
}

/// Returns whether it isn't known what Unison makes of the character in a set: a control character, or one of `, > [ \ ] { }`.
fn is_odd(c: char) -> bool
    ensures { result ≡ is_odd c }
{
    is_unknown(c) || matches!(c, ',' | '[' | '\\' | ']' | '{' | '}')
}

fn is_unknown(c: char) -> bool
    ensures { result ≡ is_unknown c }
{
    c == '>' || c.is_ascii_control()
}
