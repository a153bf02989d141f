// An iterator in a caller's memory: beside the three tables of recorded keys it is four numbers, the kind of its place (0
// done, 1 next, 2 skip value, 3 skip from `=`), the position, how many keys are recorded, and why a batch stopped, which is
// only written. What the exports that take such an iterator share.
#![tactic(auto)]

ghost use Rattle.std.specs.Prelude.{◌≡◌};
ghost use Rattle.export_cursor.specs.Cursor.{place_from, kind_of, position_of, same_place, settled_of};

use tag_step::Place;

// A place from its kind and its position, in a tag that ends at `end`.
// The kind is a number of the C interface, and each number has a place, so this can't fail and is no TryFrom.
#[tactic(auto, unfolding(crate::specs::Cursor::place_from))]
pub fn place_from(end: usize, kind: usize, position: usize) -> Place
    ensures { result ≡ place_from end kind position }
{
    match kind {
        0 => Place::Done,
        1 => Place::Next(position),
        2 => Place::SkipValue(position),
        3 => Place::SkipEqValue(position),
        _ => Place::SkipValue(end),
    }
}

// The kind of a place.
// It is a number of the C interface.
#[tactic(auto, unfolding(crate::specs::Cursor::kind_of))]
pub fn kind_of(place: Place) -> usize
    ensures { result ≡ kind_of place }
{
    match place {
        Place::Done => 0,
        Place::Next(_) => 1,
        Place::SkipValue(_) => 2,
        Place::SkipEqValue(_) => 3,
    }
}

// Its position.
#[tactic(auto, unfolding(crate::specs::Cursor::position_of))]
pub fn position_of(place: Place) -> usize
    ensures { result ≡ position_of place }
{
    match place {
        Place::Done => 0,
        Place::Next(o) | Place::SkipValue(o) | Place::SkipEqValue(o) => o,
    }
}

// Whether two places are the same.
#[tactic(auto, unfolding(crate::specs::Cursor::same_place))]
pub fn same_place(p: Place, q: Place) -> bool
    ensures { result ≡ same_place p q }
{
    kind_of(p) == kind_of(q) && position_of(p) == position_of(q)
}

// Leaves a place and the number of recorded keys in the caller's four numbers, as the next call takes them; `before` is the
// place that they had.
pub fn settle(state: &mut [usize; 4], before: Place, after: Place, recorded: usize)
    ensures { state.new ≡ settled_of state.old before after recorded }
{
    state[2] = recorded;
    if !same_place(before, after) {
        let kind = kind_of(after);
        let position = position_of(after);
        state[0] = kind;
        state[1] = position;
    }
}
