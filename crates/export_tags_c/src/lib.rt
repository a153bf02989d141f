// What the static library exports of names and tags, for Rust or C to link: the functions of crates/export_tags under the same
// names, with the same contracts. A slice passes as pointer and length, an array of fixed length as its pointer alone.
#![tactic(auto)]

ghost use Rattle.std.specs.Prelude.{◌≡◌};
ghost use Rattle.name.specs.Split.{colon_at};
ghost use Rattle.name.specs.Reserved.{is_xml, is_xmlns};
ghost use Rattle.name.specs.Declares.{declares_of, declares_number};
ghost use Rattle.name.specs.Verdict.{verdict_of, verdict_number};
ghost use Rattle.export_tags.specs.Reading.{batch_end, read_batch_of};

// `export_tags::mz_split`.
#[unsafe(no_mangle)]
pub extern "C" fn mz_split(name: &[u8]) -> usize
    ensures { result ≡ colon_at name.now }
{
    export_tags::mz_split(name)
}

// `export_tags::mz_declares`.
#[unsafe(no_mangle)]
pub extern "C" fn mz_declares(name: &[u8]) -> usize
    ensures { result ≡ declares_number (declares_of name.now) }
{
    export_tags::mz_declares(name)
}

// `export_tags::mz_is_xml`.
#[unsafe(no_mangle)]
pub extern "C" fn mz_is_xml(prefix: &[u8]) -> bool
    ensures { result ≡ is_xml prefix.now }
{
    export_tags::mz_is_xml(prefix)
}

// `export_tags::mz_is_xmlns`.
#[unsafe(no_mangle)]
pub extern "C" fn mz_is_xmlns(prefix: &[u8]) -> bool
    ensures { result ≡ is_xmlns prefix.now }
{
    export_tags::mz_is_xmlns(prefix)
}

// `export_tags::mz_verdict`.
#[unsafe(no_mangle)]
pub extern "C" fn mz_verdict(name: &[u8], value: &[u8]) -> usize
    ensures { result ≡ verdict_number (verdict_of name.now value.now) }
{
    export_tags::mz_verdict(name, value)
}

// `export_tags::mz_read_batch`.
#[unsafe(no_mangle)]
pub extern "C" fn mz_read_batch<'a>(
    tag: &[u8],
    starts: &'a mut [usize],
    ends: &'a mut [usize],
    hashes: &'a mut [u32],
    state: &mut [usize; 4],
    html: bool,
    checks: bool,
    out: &mut [usize],
) -> usize
    ensures { batch_end result starts.new ends.new hashes.new state.new out.new
        ≡ read_batch_of tag.now starts.old ends.old hashes.old state.old out.old html checks }
{
    export_tags::mz_read_batch(tag, starts, ends, hashes, state, html, checks, out)
}
