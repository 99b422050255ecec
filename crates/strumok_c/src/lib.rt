// The calls for C: those of the stream cipher, each over a state of twenty words, with the number of its answer returned; the tables that a caller may
// hold; and the block cipher. Each export is a call for itself, with what C hands over one by one: the interface for C has no generic calls.
#![tactic(auto)]

ghost use Rattle.std.specs.Prelude.{◌≡◌};
ghost use Rattle.generator.specs.declared.Kind.TheVariants.{Ordinary};
ghost use Rattle.substitution.specs.Substitution.{step_tables};
ghost use Rattle.generator.specs.Functions.{next_in};
ghost use Rattle.refusals.specs.Numbers.{accepted};
ghost use Rattle.opening.specs.Opening.{opened};
ghost use Rattle.moving.specs.Moving.{moved};
ghost use Rattle.applying.specs.Applying.{applied, applied_target, windowed, windowed_buffer};
ghost use Rattle.applying.specs.AnyStep.{applied_by, applied_target_by, windowed_by, windowed_buffer_by};
ghost use Rattle.checking.specs.Checking.{checked, checked_target};
ghost use Rattle.checking.specs.CheckingLaws.{ChecksExactly};
ghost use Rattle.kalyna.specs.Calls.{block_number, enciphered_target, deciphered_target};
ghost use Rattle.twenty_words.specs.TwentyWords.{state_in, words_of};

use columns::step_tables;
use kalyna::{decipher, encipher};
use refusals::number_of;
use strumok::{apply, apply_with, check, move_by, open, window, window_with};
use twenty_words::{leave_answer, state_in};

// The state of key and IV to the twenty words; or a refusal, with the blank state in them.
#[unsafe(no_mangle)]
pub extern "C" fn strumok_open(key: &[u8], iv: &[u8], state: &mut [u64; 20]) -> u64
    ensures value { result ≡ (opened key.now iv.now).number }
    ensures state_after { state.new ≡ words_of (opened key.now iv.now).state }
{
    let a = open(key, iv);
    leave_answer(state, a)
}

// The source with the keystream applied, to the front of the target, and the state moved on; or a refusal, with both as they were.
#[unsafe(no_mangle)]
pub extern "C" fn strumok_apply(state: &mut [u64; 20], source: &[u8], target: &mut [u8]) -> u64
    ensures value { result ≡ (applied (state_in state.old) source.now target.old).number }
    ensures state_after { state.new ≡ words_of (applied (state_in state.old) source.now target.old).state }
    ensures target_after { target.new ≡ applied_target (state_in state.old) source.now target.old }
    ensures state_unchanged { (result ≡ accepted → ⊥) → state.new ≡ state.old }
{
    let a = apply(state_in(*state), source, target);
    leave_answer(state, a)
}

// The keystream over count bytes of the buffer from start on, and the state moved on; or a refusal, with both as they were.
#[unsafe(no_mangle)]
pub extern "C" fn strumok_window(
    state: &mut [u64; 20],
    buffer: &mut [u8],
    start: usize,
    count: usize,
) -> u64
    ensures value { result ≡ (windowed (state_in state.old) buffer.old start count).number }
    ensures state_after { state.new ≡ words_of (windowed (state_in state.old) buffer.old start count).state }
    ensures buffer_after { buffer.new ≡ windowed_buffer (state_in state.old) buffer.old start count }
    ensures state_unchanged { (result ≡ accepted → ⊥) → state.new ≡ state.old }
{
    let a = window(state_in(*state), buffer, start, count);
    leave_answer(state, a)
}

// The state distance bytes on, or back where it is negative; or a refusal, with the state as it was.
#[unsafe(no_mangle)]
pub extern "C" fn strumok_move(state: &mut [u64; 20], distance: i64) -> u64
    ensures value { result ≡ (moved (state_in state.old) distance).number }
    ensures state_after { state.new ≡ words_of (moved (state_in state.old) distance).state }
    ensures state_unchanged { (result ≡ accepted → ⊥) → state.new ≡ state.old }
{
    let a = move_by(state_in(*state), distance);
    leave_answer(state, a)
}

// The key that leads to the state with this IV, to the key target; or a refusal, with nothing written.
#[unsafe(no_mangle)]
pub extern "C" fn strumok_check(state: &[u64; 20], iv: &[u8], key: &mut [u8]) -> u64
    ensures value { result ≡ (checked (state_in state.now) iv.now key.old).number }
    ensures key_after { key.new ≡ checked_target (state_in state.now) iv.now key.old }
    ensures checks_exactly { ChecksExactly (state_in state.now) iv.now key.old }
{
    number_of(check(state_in(*state), iv, key).map_err(|refused| refused.refusal))
}

// ---- with tables that the caller holds

// The ten tables of the cipher's step, to the caller's.
#[unsafe(no_mangle)]
pub extern "C" fn strumok_tables(tables: &mut [[u64; 256]; 10])
    ensures { tables.new ≡ step_tables }
{
    *tables = *step_tables();
}

// As `strumok_apply`, by the tables that are lent.
#[unsafe(no_mangle)]
pub extern "C" fn strumok_apply_with(
    state: &mut [u64; 20],
    tables: &[[u64; 256]; 10],
    source: &[u8],
    target: &mut [u8],
) -> u64
    ensures value { result ≡ (applied_by (next_in tables.now Ordinary) (state_in state.old) source.now target.old).number }
    ensures state_after { state.new ≡ words_of (applied_by (next_in tables.now Ordinary) (state_in state.old) source.now target.old).state }
    ensures target_after { target.new ≡ applied_target_by (next_in tables.now Ordinary) (state_in state.old) source.now target.old }
    ensures state_unchanged { (result ≡ accepted → ⊥) → state.new ≡ state.old }
{
    let a = apply_with(state_in(*state), tables, source, target);
    leave_answer(state, a)
}

// As `strumok_window`, by the tables that are lent.
#[unsafe(no_mangle)]
pub extern "C" fn strumok_window_with(
    state: &mut [u64; 20],
    tables: &[[u64; 256]; 10],
    buffer: &mut [u8],
    start: usize,
    count: usize,
) -> u64
    ensures value { result ≡ (windowed_by (next_in tables.now Ordinary) (state_in state.old) buffer.old start count).number }
    ensures state_after { state.new ≡ words_of (windowed_by (next_in tables.now Ordinary) (state_in state.old) buffer.old start count).state }
    ensures buffer_after { buffer.new ≡ windowed_buffer_by (next_in tables.now Ordinary) (state_in state.old) buffer.old start count }
    ensures state_unchanged { (result ≡ accepted → ⊥) → state.new ≡ state.old }
{
    let a = window_with(state_in(*state), tables, buffer, start, count);
    leave_answer(state, a)
}

// ---- the block cipher

// The source enciphered under the key, to the target, all of 32 bytes; or a refusal, with nothing written.
#[unsafe(no_mangle)]
pub extern "C" fn strumok_block_encipher(key: &[u8], source: &[u8], target: &mut [u8]) -> u64
    ensures value { result ≡ block_number key.now source.now target.old }
    ensures target_after { target.new ≡ enciphered_target key.now source.now target.old }
{
    number_of(encipher(key, source, target))
}

// The source deciphered under the key, to the target, all of 32 bytes; or a refusal, with nothing written.
#[unsafe(no_mangle)]
pub extern "C" fn strumok_block_decipher(key: &[u8], source: &[u8], target: &mut [u8]) -> u64
    ensures value { result ≡ block_number key.now source.now target.old }
    ensures target_after { target.new ≡ deciphered_target key.now source.now target.old }
{
    number_of(decipher(key, source, target))
}
