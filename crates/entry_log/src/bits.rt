//! Rows of bits. A row is a list of words, which grows with its highest bit; behind its last word it has no bits.

ghost use Rattle.std.specs.Prelude.{◌≡◌, ℕ, ◌/◌, ◌<◌, ◌&&◌, ◌||◌, nat_eq, length, vec_len, OnOk, slice_get, slice_index};
ghost use Rattle.entry_log.specs.Bits.{is_set, is_set_in, words_of};

use std::alloc::AllocError;

/// The word at a place, which is zero behind the last one.
fn word_at(words: &[u64], place: usize) -> u64
    ensures { result ≡ slice_index words.now place }
{
    words.get(place).copied().unwrap_or(0)
}

/// Whether a bit of the row is set.
fn has_bit(words: &[u64], bit: u32) -> bool
    ensures { result ≡ is_set words.now bit }
{
    word_at(words, bit as usize / 64) >> (bit % 64) & 1 == 1
}

/// Gives the row its words up to that of the bit.
fn widen_row(words: &mut Vec<u64>, bit: u32) -> Result<(), AllocError>
    ensures same { (b : ℕ) → is_set words.new.items b ≡ is_set words.old.items b }
    ensures wide { OnOk result (bit / 64 < vec_len words.new) }
{
    let needed = bit as usize / 64 + 1;
    if needed <= words.len() {
        return Ok(());
    }
    words.resize(needed, 0)
}

/// Sets a bit of the row.
fn set_bit(words: &mut [u64], bit: u32)
    requires { bit / 64 < length words.old }
    ensures bits { (b : ℕ) → is_set words.new b ≡ nat_eq b bit || is_set words.old b }
    ensures len { length words.new ≡ length words.old }
{
    let place = bit as usize / 64;
    words[place] |= 1 << (bit % 64);
}

/// The words of a row; none where there isn't one.
fn words_at(rows: &[Vec<u64>], row: usize) -> &[u64]
    ensures { result.now ≡ words_of (slice_get rows.now row) }
{
    match rows.get(row) {
        Some(words) => words.as_slice(),
        None => &[],
    }
}

/// Whether a bit of a row is set.
pub(crate) fn has(rows: &[Vec<u64>], row: usize, bit: u32) -> bool
    ensures { result ≡ is_set_in rows.now row bit }
{
    has_bit(words_at(rows, row), bit)
}

/// Puts empty rows behind the last until there is one at the index.
fn add_rows(rows: &mut Vec<Vec<u64>>, row: usize) -> Result<(), AllocError>
    ensures same { (r b : ℕ) → is_set_in rows.new.items r b ≡ is_set_in rows.old.items r b }
    ensures there { OnOk result (row < vec_len rows.new) }
{
    while rows.len() <= row {
        let alloc = *rows.allocator();
        rows.push(Vec::new(alloc))?;
    }
    Ok(())
}

/// Makes room for a bit of a row, so that it can be set.
pub(crate) fn widen(rows: &mut Vec<Vec<u64>>, row: usize, bit: u32) -> Result<(), AllocError>
    ensures same { (r b : ℕ) → is_set_in rows.new.items r b ≡ is_set_in rows.old.items r b }
    ensures wide { OnOk result (bit / 64 < length (words_of (slice_get rows.new.items row))) }
{
    add_rows(rows, row)?;
    widen_row(&mut rows[row], bit)
}

/// Sets a bit of a row.
pub(crate) fn set(rows: &mut [Vec<u64>], row: usize, bit: u32)
    requires { bit / 64 < length (words_of (slice_get rows.old row)) }
    ensures bits { (r b : ℕ) → is_set_in rows.new r b ≡ (nat_eq r row && nat_eq b bit) || is_set_in rows.old r b }
    ensures len { length rows.new ≡ length rows.old }
{
    set_bit(&mut rows[row], bit);
}
