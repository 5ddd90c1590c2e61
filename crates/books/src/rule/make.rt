ghost use Rattle.std.specs.Prelude.{◌≡◌, ◌≤◌, true, map, length};
ghost use Rattle.rules.specs.Records.{pieces_in, bare};
ghost use Rattle.rules.specs.Wrong.{nests};
ghost use Rattle.books.specs.Making.{Made};

use super::Rule;
use book::form::Form;
use rows::row::Row;
use rules::draft::Draft;
use rules::head::Head;
use rules::nesting::deepest;
use rules::piece::Piece;

impl Rule {
    // What stands in a place where no rule is.
    pub(crate) fn blank() -> Rule {
        let predecessor = Form {
            letter: b'A',
            names: Row::new(0),
        };
        let head = Head {
            printed: 0,
            before: None,
            predecessor,
            behind: None,
        };
        Rule {
            head,
            start: 0,
            size: 0,
            guard: 0,
            depth: 0,
            pieces: Row::new(Piece::BLANK),
        }
    }

    // The rule of a draft whose code stands from `start` on.
    pub(crate) fn new(draft: &Draft, start: usize) -> Rule
        requires place { start ≤ 1_024 }
        requires few { length (pieces_in draft.now.pieces) ≤ 24 }
        requires nested { nests 0 (map bare (pieces_in draft.now.pieces)) ≡ true }
        ensures { Made draft.now start result }
    {
        let successor = draft.pieces.as_slice();
        let mut pieces = Row::new(Piece::BLANK);
        pieces.extend_from_slice(successor);
        Rule {
            head: draft.head,
            start: start as u16,
            size: draft.codes.len() as u16,
            guard: draft.guard,
            depth: deepest(successor),
            pieces,
        }
    }
}
