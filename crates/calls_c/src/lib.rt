// The call from C (docs/CALLS.md): `calls_play` of crates/calls, with its clauses.
#![tactic(auto)]

ghost use Rattle.std.specs.Prelude.{◌≡◌};
ghost use Rattle.calls.specs.Play.{play_answer, play_cells, play_out};

// 14 where the list is not of its form, 13 where cells or out is short, with nothing touched; else how many bytes of out were written.
#[unsafe(no_mangle)]
pub extern "C" fn calls_play(list: &[u8], cells: &mut [u8], out: &mut [u8]) -> u64
    ensures answer { result ≡ play_answer list.now cells.old out.old }
    ensures memory { cells.new ≡ play_cells list.now cells.old out.old }
    ensures answers { out.new ≡ play_out list.now cells.old out.old }
{
    calls::calls_play(list, cells, out)
}
