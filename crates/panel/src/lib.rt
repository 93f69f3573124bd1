// The C face: judge, whole reader and whole writer on numbers and byte slices, which C passes as a pointer and a length. Answer, position and count are
// asked by a call each, as the header has it; the call that writes returns the answer.
#![tactic(auto)]

ghost use Rattle.std.specs.Prelude.{◌≡◌};
ghost use Rattle.answer.specs.Told.{told};
ghost use Rattle.block.specs.Whole.{judge_of, read_of};
ghost use Rattle.spelling.specs.Whole.{write_of};
ghost use Rattle.panel.specs.Calls.{ReadCall, WriteCall};

use answer::{Count, Kind, Outcome, Place};
use rule::choice::Choice;

// The choice of C's numbers.
fn chosen(alphabet: u32, options: u32) -> Choice
    ensures { result ≡ record { alphabet = alphabet; options = options } }
{
    Choice {
        alphabet: alphabet as usize,
        options: options as usize,
    }
}

// ---- the judge

#[unsafe(no_mangle)]
pub extern "C" fn zem_judge_answer(alphabet: u32, options: u32, text: &[u8]) -> u32
    ensures { result ≡ (judge_of alphabet options text.now).answer }
{
    block::judge(chosen(alphabet, options), text).answer()
}

#[unsafe(no_mangle)]
pub extern "C" fn zem_judge_position(alphabet: u32, options: u32, text: &[u8]) -> u64
    ensures { result ≡ (judge_of alphabet options text.now).position }
{
    block::judge(chosen(alphabet, options), text).position() as u64
}

#[unsafe(no_mangle)]
pub extern "C" fn zem_judge_count(alphabet: u32, options: u32, text: &[u8]) -> u64
    ensures { result ≡ (judge_of alphabet options text.now).count }
{
    block::judge(chosen(alphabet, options), text).count() as u64
}

// ---- the reader into a second buffer

#[unsafe(no_mangle)]
pub extern "C" fn zem_read(alphabet: u32, options: u32, text: &[u8], out: &mut [u8]) -> u32
    ensures { ReadCall alphabet options text.now out.old result out.new }
{
    block::read(chosen(alphabet, options), text, out).answer()
}

// What the reader answers with so much room, by the judge alone.
fn reading(choice: Choice, text: &[u8], room: usize) -> Outcome
    ensures { told result ≡ read_of choice.alphabet choice.options text.now room }
{
    let judged = block::judge(choice, text);
    let good = judged.count();
    if room < good {
        return Outcome::Refused(Kind::NoRoom(Place(0)), Count(good));
    }
    judged
}

#[unsafe(no_mangle)]
pub extern "C" fn zem_read_position(alphabet: u32, options: u32, text: &[u8], room: usize) -> u64
    ensures { result ≡ (read_of alphabet options text.now room).position }
{
    reading(chosen(alphabet, options), text, room).position() as u64
}

#[unsafe(no_mangle)]
pub extern "C" fn zem_read_count(alphabet: u32, options: u32, text: &[u8], room: usize) -> u64
    ensures { result ≡ (read_of alphabet options text.now room).count }
{
    reading(chosen(alphabet, options), text, room).count() as u64
}

// ---- the writer

#[unsafe(no_mangle)]
pub extern "C" fn zem_write(alphabet: u32, src: &[u8], out: &mut [u8]) -> u32
    ensures { WriteCall alphabet src.now out.old result out.new }
{
    writing::write(alphabet as usize, src, out).answer()
}

#[unsafe(no_mangle)]
pub extern "C" fn zem_write_position(alphabet: u32, src: &[u8], room: usize) -> u64
    ensures { result ≡ (write_of alphabet src.now room).told.position }
{
    spelling::measure::measure(alphabet as usize, src, room).position() as u64
}

#[unsafe(no_mangle)]
pub extern "C" fn zem_write_count(alphabet: u32, src: &[u8], room: usize) -> u64
    ensures { result ≡ (write_of alphabet src.now room).told.count }
{
    spelling::measure::measure(alphabet as usize, src, room).count() as u64
}
