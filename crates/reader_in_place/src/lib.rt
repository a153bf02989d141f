// The reader of a tag that arrives in pieces, in the form that acts directly on the caller's own: document 02, request 1.
//
// Each call is thin: the reader behind the reference goes to the call by value, the reader that comes back is put in its
// place, and what it answers is handed on. So every rule stands once, with the calls by value (crate `reader`), and a refusal,
// or more, leaves here what it leaves there.
#![tactic(auto)]

ghost use Rattle.std.specs.Prelude.{◌≡◌};
ghost use Rattle.tag_pieces.specs.Reader.{feeding, took, piece_of, finish_of, take_of};
ghost use Rattle.reader.specs.Numbers.{numbered_feeding, numbered_take};

use tag_pieces::{FeedError, MoreKeys, Reader};
use tag_step::Answer;

// One piece more, of no bytes or more.
pub fn piece(r: &mut Reader, piece: &[u8]) -> Result<(), FeedError>
    ensures { numbered_feeding (feeding result r.new) ≡ numbered_feeding (piece_of piece.now r.old) }
{
    let x = reader::piece(*r, piece);
    *r = x.reader;
    x.fed
}

// The end of the tag: what is held is all of it.
pub fn finish(r: &mut Reader) -> Result<(), FeedError>
    ensures { numbered_feeding (feeding result r.new) ≡ numbered_feeding (finish_of r.old) }
{
    let x = reader::finish(*r);
    *r = x.reader;
    x.fed
}

// One answer, or that none is ready.
pub fn take(r: &mut Reader) -> Result<Option<Answer>, MoreKeys>
    ensures { numbered_take (took result r.new) ≡ numbered_take (take_of r.old) }
{
    let x = reader::take(*r);
    *r = x.reader;
    x.taken
}
