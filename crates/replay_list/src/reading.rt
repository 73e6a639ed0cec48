// Reading the records of a thread.
ghost use Rattle.std.specs.Prelude.{◌≡◌, ◌+◌, ◌%◌, ◌<◌, ◌≤◌, List, length, take, drop, slice_index};
ghost use Rattle.thread_tree.specs.Relive as relive;
ghost use Rattle.kernel_image.specs.Decoded.{image_in, row_at};
ghost use Rattle.replay_list.specs.Records.{encoded, recorded, results_of, AreFit};

use crate::record::Record;
use arrayvec::ArrayVec;
use kernel_image::{Cell, USED, load};
use thread_tree::{EACH_GIVEN, RECORD_WORDS, ROWS};
use undo_journal::Words;

/// How many words of the records of a thread are used, 0 to 256 for a thread of a kernel.
#[tactic(auto, using(kernel_image::proofs::Callers::image_laws))]
pub fn words_used<W: Words>(words: &W, thread: u32) -> u32
    requires thread { thread < ROWS }
    ensures used { result ≡ (row_at (image_in (W.present words.now)) thread).used }
{
    load(words, Cell::RowWord(thread, USED))
}

/// How many results a record has that begins with this kind word.
pub fn result_count(kind_word: u32) -> u32
    ensures count { result ≡ results_of kind_word }
{
    thread_tree::result_count(kind_word % EACH_GIVEN, kind_word / EACH_GIVEN)
}

/// The word at this place of the records of a thread, counted from 0.
#[tactic(auto, using(crate::proofs::LawSets::word_laws))]
pub fn record_word<W: Words>(words: &W, thread: u32, at: u32) -> u32
    requires thread { thread < ROWS }
    requires within { at < RECORD_WORDS }
    ensures word { result ≡ slice_index (row_at (image_in (W.present words.now)) thread).records at }
{
    load(words, Cell::RecordWord(thread, at))
}

// So many words of the records of a thread, from one on.
#[tactic(auto, using(crate::proofs::LawSets::word_laws))]
fn results_at<W: Words>(words: &W, thread: u32, from: u32, count: u32) -> ArrayVec<u32, 4>
    requires thread { thread < ROWS }
    requires few { count ≤ 4 }
    requires within { from + count ≤ RECORD_WORDS }
    ensures results { result.items ≡ take count (drop from (row_at (image_in (W.present words.now)) thread).records) }
    ensures count { length result.items ≡ count }
{
    let mut results = ArrayVec::new();
    for at in 0..count {
        results.push(record_word(words, thread, from + at));
    }
    results
}

/// The record that begins at this word of a thread's list, counted from 0. It has at most four results, and lies
/// within the 256 words.
#[tactic(auto, using(crate::proofs::LawSets::word_laws))]
pub fn record_at<W: Words>(words: &W, thread: u32, from: u32) -> Record
    requires thread { thread < ROWS }
    requires few { results_of (slice_index (row_at (image_in (W.present words.now)) thread).records from) ≤ 4 }
    requires within { from + 1 + results_of (slice_index (row_at (image_in (W.present words.now)) thread).records from) ≤ RECORD_WORDS }
    ensures kind { result.kind ≡ slice_index (row_at (image_in (W.present words.now)) thread).records from }
    ensures results { result.results.items ≡ take (results_of result.kind) (drop (from + 1) (row_at (image_in (W.present words.now)) thread).records) }
    ensures after { result.after ≡ from + 1 + length result.results.items }
{
    let kind = record_word(words, thread, from);
    let count = result_count(kind);
    let results = results_at(words, thread, from + 1, count);
    Record {
        kind,
        results,
        after: from + 1 + count,
    }
}

/// How many records a thread has. Its words are records of the kinds that they begin with.
#[tactic(auto, using(crate::proofs::LawSets::count_laws))]
pub fn record_count<W: Words>(words: &W, thread: u32) -> u32
    requires thread { thread < ROWS }
    requires encoded { (rs : List relive.Record) × (recorded (row_at (image_in (W.present words.now)) thread) ≡ encoded rs) × AreFit rs }
    requires within { (row_at (image_in (W.present words.now)) thread).used ≤ RECORD_WORDS }
    ensures count { (rs : List relive.Record) → recorded (row_at (image_in (W.present words.now)) thread) ≡ encoded rs → AreFit rs → result ≡ length rs }
{
    let used = words_used(words, thread);
    let mut from = 0;
    let mut count = 0;
    while from < used {
        from += 1 + result_count(record_word(words, thread, from));
        count += 1;
    }
    count
}
