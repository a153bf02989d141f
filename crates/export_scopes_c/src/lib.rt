// What the static library exports of a resolver to change it, for Rust or C to link: the functions of crates/export_scopes under
// the same names, with the same contracts. A slice passes as pointer and length, an array of fixed length as its pointer alone.
#![tactic(auto)]

ghost use Rattle.std.specs.Prelude.{◌≡◌, []};
ghost use Rattle.scope_table.specs.Lent.{lent_of};
ghost use Rattle.scope_change.specs.Change.{level_of};
ghost use Rattle.scope_declare.specs.Declare.{add_of, pop_of};
ghost use Rattle.scope_push.specs.Push.{push_of};
ghost use Rattle.export_memory.specs.Boundary.{crossed, change_in};
ghost use Rattle.export_scopes.specs.Layout.{layout_of};
ghost use Rattle.export_scopes.specs.OneDeclaration.{declared_by};
ghost use Rattle.export_scopes.specs.Fresh.{fresh_by};

// `export_scopes::mz_layout`.
#[unsafe(no_mangle)]
pub extern "C" fn mz_layout(what: usize) -> usize
    ensures { result ≡ layout_of what }
{
    export_scopes::mz_layout(what)
}

// `export_scopes::mz_fresh`.
#[unsafe(no_mangle)]
pub extern "C" fn mz_fresh(text: &mut [u8], records: &mut [usize], head: &mut [usize; 4]) -> usize
    ensures { crossed result text.new records.new head.new []
        ≡ fresh_by text.old records.old head.old }
{
    export_scopes::mz_fresh(text, records, head)
}

// `export_scopes::mz_push`.
#[unsafe(no_mangle)]
pub extern "C" fn mz_push(
    text: &mut [u8],
    records: &mut [usize],
    head: &mut [usize; 4],
    tag: &[u8],
    at: usize,
    detail: &mut [usize; 2],
) -> usize
    ensures { crossed result text.new records.new head.new detail.new
        ≡ change_in (lent_of (push_of tag.now at)) text.old records.old head.old detail.old }
{
    export_scopes::mz_push(text, records, head, tag, at, detail)
}

// `export_scopes::mz_pop`.
#[unsafe(no_mangle)]
pub extern "C" fn mz_pop(text: &mut [u8], records: &mut [usize], head: &mut [usize; 4]) -> usize
    ensures { crossed result text.new records.new head.new []
        ≡ change_in (lent_of pop_of) text.old records.old head.old [] }
{
    export_scopes::mz_pop(text, records, head)
}

// `export_scopes::mz_set_level`.
#[unsafe(no_mangle)]
pub extern "C" fn mz_set_level(
    text: &mut [u8],
    records: &mut [usize],
    head: &mut [usize; 4],
    to: u16,
) -> usize
    ensures { crossed result text.new records.new head.new []
        ≡ change_in (lent_of (level_of to)) text.old records.old head.old [] }
{
    export_scopes::mz_set_level(text, records, head, to)
}

// `export_scopes::mz_add`.
#[unsafe(no_mangle)]
pub extern "C" fn mz_add<'p>(
    text: &mut [u8],
    records: &mut [usize],
    head: &mut [usize; 4],
    named: bool,
    prefix: &'p [u8],
    value: &'p [u8],
    detail: &mut [usize; 2],
) -> usize
    ensures { crossed result text.new records.new head.new detail.new
        ≡ change_in (lent_of (add_of (declared_by named) prefix.now value.now))
        text.old records.old head.old detail.old }
{
    export_scopes::mz_add(text, records, head, named, prefix, value, detail)
}
