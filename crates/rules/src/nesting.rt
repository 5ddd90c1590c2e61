// How the brackets of a successor nest.
ghost use Rattle.std.specs.Prelude.{◌≡◌, ◌-◌, ◌^◌, ◌<◌, min, map};
ghost use Rattle.rules.specs.Records.{bare};
ghost use Rattle.rules.specs.Wrong.{after, nests, deepest};

use super::piece::Piece;

// How many brackets are open behind a letter or bracket, where `depth` are open before it. A number, and no `Depth` of at most 32:
// a line may open up to 200, and is judged as a whole.
fn after(depth: usize, piece: Piece) -> usize
    requires { depth < 2 ^ 64 - 1 }
    ensures { result ≡ after depth (bare piece) }
{
    match piece.letter {
        b'[' => depth + 1,
        b']' => depth.saturating_sub(1),
        _ => depth,
    }
}

/// Whether no bracket closes that is not open, and none stays open.
pub fn nests(pieces: &[Piece]) -> bool
    ensures { result ≡ nests 0 (map bare pieces.now) }
{
    let mut depth: usize = 0;
    for p in pieces {
        if p.letter == b']' && depth == 0 {
            return false;
        }
        depth = after(depth, *p);
    }
    depth == 0
}

/// The most brackets that are ever open, and 255 where there are more.
pub fn deepest(pieces: &[Piece]) -> u8
    ensures { result ≡ min 255 (deepest 0 (map bare pieces.now)) }
{
    let mut depth: usize = 0;
    let mut most: usize = 0;
    for p in pieces {
        depth = after(depth, *p);
        most = most.max(depth);
    }
    // within 255, so it fits; a `try_from` would be no plainer
    most.min(255) as u8
}
