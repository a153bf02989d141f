// What all exports on a lent resolver share, whether they change it or ask it: its head stands in four numbers, and an answer is
// a number with its values in a lent array. Both arrays have a fixed length and pass by their pointers alone.
#![tactic(auto)]

ghost use Rattle.std.specs.Prelude.{◌≡◌, set};
ghost use Rattle.scope_table.specs.Answer.{change_numbers};
ghost use Rattle.export_memory.specs.Boundary.{head_in, head_after, code_of, asked, ask_in};

use scope_table::{Head, Outcome, Told};

// The numbers of a head, and of the values that an answer has.
pub const HEAD: usize = 4;

pub const DETAIL: usize = 2;

// The head that stands in four numbers.
pub fn head_from(head: &[usize; 4]) -> Head
    ensures { result ≡ head_in head.now }
{
    Head {
        used: head[0],
        count: head[1],
        level: head[2],
        limit: head[3],
    }
}

// Writes them.
fn put_head(t: &mut [usize; 4], head: Head)
    ensures { t.new ≡ head_after t.old head }
{
    t[0] = head.used;
    t[1] = head.count;
    t[2] = head.level;
    t[3] = head.limit;
}

// Writes the two values of an answer, and gives its number.
pub fn tell(detail: &mut [usize; 2], told: Told) -> usize
    ensures { asked result detail.new ≡ asked told.number (set (set detail.old 0 told.first) 1 told.second) }
{
    detail[0] = told.first;
    detail[1] = told.second;
    told.number
}

// What a call on lent memory left: its head is written, and the answer's number is given.
pub fn left_head(head: &mut [usize; 4], out: Outcome) -> usize
    ensures { (result ≡ code_of (change_numbers out.answer))
        × (head.new ≡ head_after head.old out.head) }
{
    let left = out.head;
    put_head(head, left);
    let answer = out.answer;
    let told = scope_table::change_numbers(answer);
    told.number
}

// The same, and the answer's values are written.
pub fn left(head: &mut [usize; 4], detail: &mut [usize; 2], out: Outcome) -> usize
    ensures { (asked result detail.new ≡ ask_in (change_numbers out.answer) detail.old)
        × (head.new ≡ head_after head.old out.head) }
{
    let left = out.head;
    put_head(head, left);
    let answer = out.answer;
    tell(detail, scope_table::change_numbers(answer))
}
