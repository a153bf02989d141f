// The attribute iterator that carries its tag with it.
//
// Ports `Attributes` of src/events/attributes.rs: `wrap`, `new`, `html`, `with_checks`, and `next` of its `Iterator`; with `key`
// and `value`, which hand out what `Attribute` holds. The work is the plain iterator's, in the crate `tag_step`, and that of
// the crate `tag_parts`: each function here takes the struct apart and calls it. A state goes there and back by value, 20 KB
// each way: whoever reads whole tags calls the crate `tag_batch`.
#![tactic(auto)]

ghost use Rattle.std.specs.Prelude.{◌≡◌, true, false};
ghost use Rattle.tag_step.specs.Next.{next_of, opened};
ghost use Rattle.tag_step.specs.Numbers.{numbers_of};
ghost use Rattle.tag_parts.specs.Parts.{key_part, value_part};
ghost use Rattle.tag_carried.specs.Held.{opened_on, checked_as, answer_of, after_next};

use tag_step::{Answer, IterState};

// A tag and the state of the iterator over it: `Attributes` of the crate, which calls the tag `buf`.
#[derive(Clone, Copy)]
pub struct Attributes<'a> {
    pub tag: &'a [u8],
    pub state: IterState,
}

impl<'a> Attributes<'a> {
    // An iterator over `tag`, with checks on.
    //
    //     name key="value" key2='value'
    //         |
    //       pos: reading begins here, most often where the tag's name ends
    fn wrap(tag: &'a [u8], pos: usize, html: bool) -> Attributes<'a>
        ensures { result ≡ opened_on tag.entry pos html }
    {
        Attributes {
            tag,
            state: IterState::new(pos, html),
        }
    }

    // An iterator in XML mode.
    pub fn new(tag: &'a [u8], pos: usize) -> Attributes<'a>
        ensures { result ≡ opened_on tag.entry pos false }
    {
        Attributes::wrap(tag, pos, false)
    }

    // An iterator in HTML mode.
    pub fn html(tag: &'a [u8], pos: usize) -> Attributes<'a>
        ensures { result ≡ opened_on tag.entry pos true }
    {
        Attributes::wrap(tag, pos, true)
    }

    // Sets checks on or off. The crate's also hands `self` back.
    #[tactic(auto, unfolding(tag_step::specs::Next::with_checks))]
    pub fn with_checks(&mut self, checks: bool)
        ensures { self.new ≡ checked_as checks self.old }
    {
        self.state.check_duplicates = checks;
    }

    // The next answer, and the iterator moves on: `next` of the `Iterator` that this is.
    pub fn next(&mut self) -> Answer
        ensures { (numbers_of result ≡ numbers_of (answer_of self.old)) × (self.new ≡ after_next self.old) }
    {
        let step = self.state.next(self.tag);
        self.state = step.state;
        step.answer
    }

    // The key of an answer that is an attribute, else nothing: `key` of the crate's `Attribute`.
    pub fn key(&self, answer: Answer) -> &'a [u8]
        ensures { result.now ≡ key_part self.now.tag.now answer }
    {
        tag_parts::key_part(self.tag, answer)
    }

    // The value of an answer that is an attribute, without its quotes, else nothing: `value` of the crate's `Attribute`.
    pub fn value(&self, answer: Answer) -> &'a [u8]
        ensures { result.now ≡ value_part self.now.tag.now answer }
    {
        tag_parts::value_part(self.tag, answer)
    }
}

// The first answer from position `pos` on, in XML mode with checks on: an iterator in a local, asked once.
pub fn first(tag: &[u8], pos: usize) -> Answer
    ensures { numbers_of result ≡ numbers_of (next_of tag.now (opened pos false true)).answer }
{
    let mut it = Attributes::new(tag, pos);
    it.next()
}
