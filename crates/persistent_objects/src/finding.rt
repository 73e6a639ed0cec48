// Which live object a reference names.
ghost use Rattle.std.specs.Prelude.{◌≡◌, ◌<◌, ◌-◌, ◌%◌, slice_index, is_some, true};
ghost use Rattle.thread_tree.specs.Program.{program_of};
ghost use Rattle.kernel_model.specs.Objects.{object_of};
ghost use Rattle.kernel_image.specs.Decoded.{image_in};
ghost use Rattle.kernel_image.specs.Shown.{is_begun, static_mark};
ghost use Rattle.persistent_objects.specs.Objects.{objects_of};

use kernel_image::{Cell, PLACES};
use thread_check::Checked;
use undo_journal::Words;

// Whether the live bits say that an object begins at an even place.
#[tactic(auto, using(crate::proofs::LawSets::word_laws))]
fn is_begun<W: Words>(words: &W, place: u32) -> bool
    requires place { place < 4096 }
    ensures is { result ≡ is_begun (image_in (W.present words.now)).live place }
{
    let bits = kernel_image::load(words, Cell::LiveWord(place / PLACES));
    (bits >> (place / 2 % 32)) % 2 == 1
}

// The number of the type of the object that begins at a place.
#[tactic(auto, using(crate::proofs::LawSets::word_laws))]
fn kind_at<W: Words>(words: &W, place: u32) -> u32
    requires place { place < 4096 }
    ensures kind { result ≡ slice_index (image_in (W.present words.now)).heap place % static_mark - 1 }
{
    let header = kernel_image::load(words, Cell::HeapWord(place));
    (header % 65_536).saturating_sub(1)
}

/// Whether a live object of this type begins at this place.
#[tactic(auto, using(crate::proofs::LawSets::finding_laws))]
pub(crate) fn is_object<W: Words>(words: &W, program: &Checked, place: u32, kind: u32) -> bool
    ensures is { is_some (object_of (objects_of (program_of program.now) (image_in (W.present words.now))) place kind) ≡ result }
    ensures low { result ≡ true → place < 4096 }
{
    let _ = program;
    if place % 2 == 1 {
        return false;
    }
    if place >= 4_096 {
        return false;
    }
    if !is_begun(words, place) {
        return false;
    }
    kind_at(words, place) == kind
}
