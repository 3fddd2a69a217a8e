//! The words of a list, as they begin.
ghost use Rattle.std.specs.Prelude.{◌≡◌, ◌<◌, ◌+◌, ◌^◌, IfOk, replicate};
ghost use Rattle.futures_buffered_table.specs.Beginning.{full_words, words_at_first};
ghost use Rattle.futures_buffered_table.specs.Words.{empty_words};

use crate::rule::ListKey;
use std::alloc::{AllocError, Global};

// The words of an empty list: no mark, no link, and the stub as the tail. Allocates once.
pub fn first_words(alloc: Global, capacity: usize) -> Result<Vec<u64>, AllocError>
    requires { capacity < 2 ^ 62 }
    ensures { IfOk result (λ words. words.items ≡ empty_words capacity) }
{
    let links_end = capacity + capacity + 1;
    let mut words = Vec::with_capacity(alloc, links_end + 1)?;
    words.resize(links_end, 0)?;
    words.push(capacity as u64)?;
    Ok(words)
}

// Marks the slots of an empty list, in order, and puts them in its row.
fn mark_in_order(words: &mut [u64], capacity: usize)
    requires { (capacity < 2 ^ 62) × (words.old ≡ empty_words capacity) }
    ensures { words.new ≡ full_words capacity }
{
    let mut before = capacity;
    'slots: for slot in 0..capacity {
        words[slot] = 1;
        words[capacity + capacity + 1] = slot as u64;
        words[capacity + before] = slot as u64 + 1;
        before = slot;
    }
}

// The words of a list that begins as this key says.
pub fn words_of(alloc: Global, key: ListKey) -> Result<Vec<u64>, AllocError>
    requires { key.capacity < 2 ^ 62 }
    ensures { IfOk result (λ words. words.items ≡ words_at_first key) }
{
    let mut words = first_words(alloc, key.capacity)?;
    if key.full {
        mark_in_order(words.as_mut_slice(), key.capacity);
    }
    Ok(words)
}

// Writes the words of a list that begins as this key says over as many zeros.
pub fn fill_words(words: &mut [u64], key: ListKey)
    requires { (key.capacity < 2 ^ 62)
        × (words.old ≡ replicate (key.capacity + key.capacity + 2) 0) }
    ensures { words.new ≡ words_at_first key }
{
    words[key.capacity + key.capacity + 1] = key.capacity as u64;
    if key.full {
        mark_in_order(words, key.capacity);
    }
}
