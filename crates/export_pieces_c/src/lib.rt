// What the static library exports of tags that arrive in pieces, for Rust or C to link: the functions of crates/export_pieces under
// the same names, with the same contracts. A slice passes as pointer and length, an array of fixed length as its pointer alone.
#![tactic(auto)]

ghost use Rattle.std.specs.Prelude.{◌≡◌};
ghost use Rattle.export_pieces.specs.Pieces.{piece_end, mz_piece_of, finish_end, mz_finish_of, answers_end, mz_take_of};

// `export_pieces::mz_piece`.
#[unsafe(no_mangle)]
pub extern "C" fn mz_piece(text: &mut [u8], reader: &mut [usize; 9], piece: &[u8]) -> usize
    ensures { piece_end result text.new reader.new ≡ mz_piece_of text.old reader.old piece.now }
{
    export_pieces::mz_piece(text, reader, piece)
}

// `export_pieces::mz_finish`.
#[unsafe(no_mangle)]
pub extern "C" fn mz_finish(reader: &mut [usize; 9]) -> usize
    ensures { finish_end result reader.new ≡ mz_finish_of reader.old }
{
    export_pieces::mz_finish(reader)
}

// `export_pieces::mz_take`.
#[unsafe(no_mangle)]
pub extern "C" fn mz_take<'a>(
    text: &[u8],
    starts: &'a mut [usize],
    ends: &'a mut [usize],
    hashes: &'a mut [u32],
    reader: &mut [usize; 9],
    html: bool,
    checks: bool,
    out: &mut [usize],
) -> usize
    ensures { answers_end result starts.new ends.new hashes.new reader.new out.new
        ≡ mz_take_of text.now starts.old ends.old hashes.old reader.old out.old html checks }
{
    export_pieces::mz_take(text, starts, ends, hashes, reader, html, checks, out)
}
