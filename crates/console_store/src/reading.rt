// Reading the console.
ghost use Rattle.std.specs.Prelude.{◌≡◌, ◌<◌, ◌%◌};
ghost use Rattle.kernel_image.specs.Decoded.{image_in};
ghost use Rattle.kernel_image.specs.Shown.{byte_of};
ghost use Rattle.console_store.specs.Console.{byte_in_word};

use kernel_image::{CONSOLE_LENGTH, Cell, load};
use thread_tree::CONSOLE_BYTES;
use undo_journal::Words;

/// Byte `at` of the console in the word that holds it and three more.
#[tactic(auto, using(crate::proofs::Bytes::byte_of_four))]
pub(crate) fn byte_in(word: u32, at: u32) -> u8
    ensures byte { result ≡ byte_in_word word (at % 4) }
{
    let bytes = word.to_le_bytes();
    bytes[(at % 4) as usize]
}

/// The length of the console in bytes.
#[tactic(auto, unfolding(kernel_image::specs::Decoded::decoded_of))]
pub fn length<W: Words>(words: &W) -> u32
    ensures length { result ≡ (image_in (W.present words.now)).console_length }
{
    load(words, Cell::Header(CONSOLE_LENGTH))
}

/// Byte `at` of the console, 0 to 8,191, which means something only below its length.
#[tactic(auto, using(crate::proofs::Images::console_word))]
pub fn byte<W: Words>(words: &W, at: u32) -> u8
    requires within { at < CONSOLE_BYTES }
    ensures byte { result ≡ byte_of (image_in (W.present words.now)).console at }
{
    byte_in(load(words, Cell::ConsoleWord(at / 4)), at)
}
