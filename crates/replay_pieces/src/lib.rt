// The reader's calls over references (crate `reader_in_place`), called on a local of the caller's own: so a program, whose
// functions hand plain values on, runs them. What a function is given is copied into a local, which is lent for the call, and
// what it then holds is handed back beside the answer. So each does what the call by value does, and its contract is that one's.
#![tactic(auto)]

ghost use Rattle.std.specs.Prelude.{◌≡◌};
ghost use Rattle.tag_pieces.specs.Reader.{piece_of, finish_of, take_of};

use tag_pieces::{Feeding, Reader, Take};

#[tactic(auto, using(reader::proofs::Numbers::feeding_apart))]
pub fn piece(mut r: Reader, piece: &[u8]) -> Feeding
    ensures { result ≡ piece_of piece.now r }
{
    let fed = reader_in_place::piece(&mut r, piece);
    Feeding { fed, reader: r }
}

#[tactic(auto, using(reader::proofs::Numbers::feeding_apart))]
pub fn finish(mut r: Reader) -> Feeding
    ensures { result ≡ finish_of r }
{
    let fed = reader_in_place::finish(&mut r);
    Feeding { fed, reader: r }
}

#[tactic(auto, using(reader::proofs::Numbers::take_apart))]
pub fn take(mut r: Reader) -> Take
    ensures { result ≡ take_of r }
{
    let taken = reader_in_place::take(&mut r);
    Take { taken, reader: r }
}
