// A reader of a tag that arrives in pieces: document 02, request 1. quick-xml has none.
//
// It takes pieces, and a finish after the last. What is held is read as far as it goes: an answer is given as soon as the last
// byte is held that its rule looks at, and till then the reader says more, and changes nothing. After the finish the held bytes
// are the tag. What it does is `piece_of`, `finish_of` and `take_of` of specs/Reader.antt.
//
// Here are its parts, and a piece on text that a caller lends. The crate `tag_takes` takes answers in lent memory, the crate
// `reader` has it all by value.
#![tactic(auto)]

ghost use Rattle.std.specs.Prelude.{◌≡◌};
ghost use Rattle.tag_pieces.specs.Reader.{fed_number, fed_of, is_accepted, grown, piece_in};

use tag_keys::CAPACITY;
use tag_phase::Phase;
use tag_step::{Answer, Place};

// How many bytes a reader holds.
pub const HOLD: usize = 65536;

// A reader with its own memory. The first `held` bytes of `text` are held.
#[derive(Clone, Copy)]
pub struct Reader {
    pub text: [u8; HOLD],
    pub held: usize,
    pub finished: bool,
    pub phase: Phase,
    pub place: Place,
    pub html: bool,
    pub check_duplicates: bool,
    pub starts: [usize; CAPACITY],
    pub ends: [usize; CAPACITY],
    pub hashes: [u32; CAPACITY],
    pub count: usize,
}

// What a reader has beside its text and its key tables.
#[derive(Clone, Copy)]
pub struct Cursor {
    pub place: Place,
    pub html: bool,
    pub checks: bool,
    // how many keys are recorded
    pub count: usize,
    // how many bytes are held
    pub held: usize,
    pub finished: bool,
    pub phase: Phase,
}

// Why a piece, or a finish, is not accepted.
#[derive(Clone, Copy)]
pub enum FeedError {
    // 32: the tag is finished already.
    Finished,
    // 31: more bytes would be held than `HOLD`.
    TooLong,
    // The lent text has no room for it. The caller lends longer text, with the held bytes in their places, and comes again.
    LendMore,
}

// The reader after a piece or a finish.
#[derive(Clone, Copy)]
pub struct Feeding {
    pub fed: Result<(), FeedError>,
    pub reader: Reader,
}

// The next key is due to be recorded, and no place is lent for it.
#[derive(Clone, Copy)]
pub struct MoreKeys;

// What `take` gives, and the reader after it. None: no answer is ready, and the tag is not finished.
#[derive(Clone, Copy)]
pub struct Take {
    pub taken: Result<Option<Answer>, MoreKeys>,
    pub reader: Reader,
}

// What a piece leaves, beside the text.
#[derive(Clone, Copy)]
pub struct Growth {
    pub fed: Result<(), FeedError>,
    pub held: usize,
    pub phase: Phase,
}

// 0, or the number of the refusal; 98 where text has to be lent.
#[tactic(auto, unfolding(crate::specs::Reader::fed_number))]
pub fn fed_number(fed: Result<(), FeedError>) -> usize
    ensures { result ≡ fed_number fed }
{
    match fed {
        Ok(()) => 0,
        Err(FeedError::Finished) => 32,
        Err(FeedError::TooLong) => 31,
        Err(FeedError::LendMore) => 98,
    }
}

// What becomes of a piece of `n` bytes. What is held may be any number, so that the sum is not made before it is known to fit.
#[tactic(auto, unfolding(crate::specs::Reader::fed_of))]
fn fed_by(finished: bool, room: usize, held: usize, n: usize) -> Result<(), FeedError>
    ensures { result ≡ fed_of finished room held n }
{
    if finished {
        return Err(FeedError::Finished);
    }
    if n > HOLD || held > HOLD - n {
        return Err(FeedError::TooLong);
    }
    if held + n > room {
        return Err(FeedError::LendMore);
    }
    Ok(())
}

// Whether a piece or a finish is accepted.
#[tactic(auto, unfolding(crate::specs::Reader::is_accepted))]
pub fn accepted(fed: Result<(), FeedError>) -> bool
    ensures { result ≡ is_accepted fed }
{
    fed.is_ok()
}

// One piece more on lent text. It is copied behind what is held, and looked at once; where it is refused nothing is changed.
pub fn piece_in(text: &mut [u8], at: Cursor, piece: &[u8]) -> Growth
    ensures { grown result.fed text.new result.held result.phase
        ≡ piece_in text.old at.held at.finished at.place at.phase piece.now }
{
    let Cursor {
        place,
        held,
        finished,
        phase,
        ..
    } = at;
    let n = piece.len();
    let fed = fed_by(finished, text.len(), held, n);
    if !accepted(fed) {
        return Growth { fed, held, phase };
    }
    let to = held + n;
    scan::put(text, held, piece);
    let after = tag_phase::carry(&text[..to], held, place, phase);
    Growth {
        fed,
        held: to,
        phase: after,
    }
}
