// The texts of a cycle's waits (pipeline/timeline.rs, `Trace`), as ooo/scoreboard.rs formats them, and the texts that views show.
#![tactic(auto)]

use capability::Refusal;
use texts::{write_hex, write_parts};
use timeline::WaitForm;

// Texts written to a lent buffer.
pub mod texts;

ghost use Rattle.model.specs.Op.{first_word};
ghost use Rattle.model.specs.Traces.{render};
ghost use Rattle.traces.specs.Texts.{Wrote};
ghost use Rattle.timeline.specs.Waits.{detail_of};

// The text of a form, of its words: those of the operation that waits and of the one waited for, the register's name or the kind's.
fn write_words(
    form: WaitForm,
    mine: &[u8],
    register: &[u8],
    other: &[u8],
    target: u64,
    out: &mut [u8],
) -> Result<Option<usize>, Refusal>
    ensures { Wrote (Some (render (detail_of form mine.now register.now other.now target))) out.old out.new result }
{
    match form {
        WaitForm::Overwrites => write_parts(
            &[
                mine,
                b" may not overwrite ",
                register,
                b" until ",
                other,
                b" has read it",
            ],
            out,
        ),
        WaitForm::MemoryOrder => write_parts(
            &[
                mine,
                b" waits for ",
                other,
                b" \xE2\x80\x94 memory keeps program order",
            ],
            out,
        ),
        WaitForm::Drains => write_parts(&[mine, b" waits for the machine to drain"], out),
        WaitForm::WaitsFor => {
            write_parts(&[mine, b" waits for ", register, b" from ", other], out)
        }
        WaitForm::WaitsForOlder => write_parts(
            &[
                mine,
                b" waits for ",
                register,
                b" from an older instruction",
            ],
            out,
        ),
        WaitForm::BehindBranch => write_parts(
            &[mine, b" cannot issue behind an unresolved branch"],
            out,
        ),
        WaitForm::BehindSystem => write_parts(
            &[mine, b" waits \xE2\x80\x94 a system instruction serializes"],
            out,
        ),
        WaitForm::StillWrites => write_parts(
            &[
                mine,
                b" must wait \xE2\x80\x94 an older instruction still writes ",
                register,
            ],
            out,
        ),
        WaitForm::AllBusy => write_parts(&[b"all ", register, b" units are busy"], out),
        WaitForm::RedirectTo => write_hex(b"redirect to 0x", target, out),
    }
}

// The text of a wait. `mine` and `other` are the disassembly of the operation that waits and of the one waited for, `register` the register's
// name, or the kind's for AllBusy; a form reads only what its text has.
pub fn write_wait(
    form: WaitForm,
    mine: &[u8],
    register: &[u8],
    other: &[u8],
    target: u64,
    out: &mut [u8],
) -> Result<Option<usize>, Refusal>
    ensures { Wrote (Some (render (detail_of form (first_word mine.now) register.now (first_word other.now) target))) out.old out.new result }
{
    let m = op::word::mnemonic(mine, b"?");
    let o = op::word::mnemonic(other, b"?");
    write_words(form, m, register, o, target, out)
}
