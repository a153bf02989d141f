// What the static library exports of a resolver to change it (crates/export_scopes_c), for Rust or C to link. Each function hands what
// it is lent on to the crate that has the rule, and answers by numbers; none asks anything of its caller.
#![tactic(auto)]

ghost use Rattle.std.specs.Prelude.{◌≡◌, []};
ghost use Rattle.scope_table.specs.Lent.{lent_of};
ghost use Rattle.scope_change.specs.Change.{level_of};
ghost use Rattle.scope_declare.specs.Declare.{add_of, pop_of};
ghost use Rattle.scope_push.specs.Push.{push_of};
ghost use Rattle.export_memory.specs.Boundary.{crossed, change_in};
ghost use Rattle.export_scopes.specs.Layout.{layout_of};
ghost use Rattle.export_scopes.specs.OneDeclaration.{declared_by};
ghost use Rattle.export_scopes.specs.Fresh.{fresh_by};

use export_memory::{DETAIL, HEAD};
use name::PrefixDeclaration;
use scope_table::{Head, NamespaceResolver};

// The numbers that a caller's memory is held against, as `layout_of` of specs/Layout.antt lists them. The kit has no
// `size_of`, so the bytes of a number, its alignment and the bytes of a hash are what x86-64 has.
const LAYOUT: [usize; 14] = [
    tag_keys::CAPACITY,
    4,
    5,
    NamespaceResolver::TEXT,
    NamespaceResolver::RECORDS,
    NamespaceResolver::ROW,
    HEAD,
    DETAIL,
    5,
    8,
    8,
    4,
    9,
    tag_pieces::HOLD,
];

// The library's own numbers, so that a caller can hold its memory against them: 0 key places of a table, 1 numbers of an
// iterator's state, 2 of an answer; 3 bytes of text, 4 records, 5 numbers of a record, 6 of a head, 7 of a detail, 8 of a
// listing's detail; 9 bytes of a number, 10 its alignment; 11 bytes of a hash; 12 numbers of a reader in pieces, 13 bytes that it
// holds. Any other is 0.
pub fn mz_layout(what: usize) -> usize
    ensures { result ≡ layout_of what }
{
    if what < 14 {
        return LAYOUT[what];
    }
    0
}

// Writes the fresh resolver, whatever stood in the lent memory: `scope_table::fresh_in`. `head` is text used, records in use,
// level and limit; it is not read, and is written where there is room. 0, 98, 99.
pub fn mz_fresh(text: &mut [u8], records: &mut [usize], head: &mut [usize; 4]) -> usize
    ensures { crossed result text.new records.new head.new []
        ≡ fresh_by text.old records.old head.old }
{
    let none = Head {
        used: 0,
        count: 0,
        level: 0,
        limit: 0,
    };
    let out = scope_table::fresh_in(text, records, none);
    if out.answer.is_err() {
        return scope_table::change_numbers(out.answer).number;
    }
    export_memory::left_head(head, out)
}

// A tag opens a scope: `scope_push::push_in`. 0, or the refusal's number with its values in `detail`.
pub fn mz_push(
    text: &mut [u8],
    records: &mut [usize],
    head: &mut [usize; 4],
    tag: &[u8],
    at: usize,
    detail: &mut [usize; 2],
) -> usize
    ensures { crossed result text.new records.new head.new detail.new
        ≡ change_in (lent_of (push_of tag.now at)) text.old records.old head.old detail.old }
{
    let h = export_memory::head_from(head);
    let out = scope_push::push_in(text, records, h, tag, at);
    export_memory::left(head, detail, out)
}

// A scope ends: `scope_declare::pop_in`.
pub fn mz_pop(text: &mut [u8], records: &mut [usize], head: &mut [usize; 4]) -> usize
    ensures { crossed result text.new records.new head.new []
        ≡ change_in (lent_of pop_of) text.old records.old head.old [] }
{
    let h = export_memory::head_from(head);
    let out = scope_declare::pop_in(text, records, h);
    export_memory::left_head(head, out)
}

// A level is set, and the records above it are dropped: `scope_change::set_level_in`.
pub fn mz_set_level(text: &mut [u8], records: &mut [usize], head: &mut [usize; 4], to: u16) -> usize
    ensures { crossed result text.new records.new head.new []
        ≡ change_in (lent_of (level_of to)) text.old records.old head.old [] }
{
    let h = export_memory::head_from(head);
    let out = scope_change::set_level_in(text, records, h, to);
    export_memory::left_head(head, out)
}

// A named prefix, or the default.
fn declared_by(named: bool) -> Option<PrefixDeclaration>
    ensures { result ≡ declared_by named }
{
    if named {
        return Some(PrefixDeclaration::Named);
    }
    Some(PrefixDeclaration::Default)
}

// A binding goes in: `scope_declare::add_in`. Without `named` the default, whatever `prefix` holds.
pub fn mz_add<'p>(
    text: &mut [u8],
    records: &mut [usize],
    head: &mut [usize; 4],
    named: bool,
    prefix: &'p [u8],
    value: &'p [u8],
    detail: &mut [usize; 2],
) -> usize
    ensures { crossed result text.new records.new head.new detail.new
        ≡ change_in (lent_of (add_of (declared_by named) prefix.now value.now))
        text.old records.old head.old detail.old }
{
    let h = export_memory::head_from(head);
    let out = scope_declare::add_in(text, records, h, declared_by(named), prefix, value);
    export_memory::left(head, detail, out)
}
