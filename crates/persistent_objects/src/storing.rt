// Storing a field of a live object.
ghost use Rattle.std.specs.Prelude.{◌≡◌, ℕ, ◌+◌, ◌<◌, ◌≤◌, length, is_some, slice_set, IsErr, OnOk, OnErr, Some};
ghost use Rattle.nv_memory.specs.Budget.{IsShort};
ghost use Rattle.undo_journal.specs.Undo.{room_of};
ghost use Rattle.undo_journal.specs.Lending.{IsLent, IsWithin};
ghost use Rattle.thread_tree.specs.Program.{program_of};
ghost use Rattle.thread_tree.specs.Numbers.{fields_of};
ghost use Rattle.kernel_model.specs.Objects.{object_of, first_place, with_field};
ghost use Rattle.kernel_model.specs.Sound.{AreSoundObjects};
ghost use Rattle.kernel_image.specs.Decoded.{image_in};
ghost use Rattle.persistent_objects.specs.Layout.{KeepsLayout};
ghost use Rattle.persistent_objects.specs.Objects.{objects_of};
ghost use Rattle.persistent_objects.specs.Stops.{is_found, OnBad, OnCut};

use crate::finding::is_object;
use crate::stop::Stop;
use kernel_image::Cell;
use nv_memory::{Cut, Nv};
use thread_check::Checked;
use undo_journal::Open;

// Stores a word of the heap.
#[tactic(auto, using(kernel_image::proofs::Callers::store_laws))]
fn put<N: Nv>(tx: &mut Open<N>, at: u32, value: u32) -> Result<(), Cut>
    requires place { at < 4096 }
    requires room { 1 ≤ room_of (N.words tx.old) }
    ensures cut { IsErr result → IsShort (N.left tx.old) 4 }
    ensures dark { OnErr result (N.left tx.new ≡ Some 0) }
    ensures lent { IsLent N.Nv tx.old tx.new }
    ensures within { OnOk result (IsWithin N.Nv tx.old tx.new 1) }
    ensures heap { OnOk result (image_in (N.words tx.new) ≡ record (image_in (N.words tx.old)) { heap = slice_set (image_in (N.words tx.old)).heap at value }) }
{
    kernel_image::store(tx, Cell::HeapWord(at), value)?;
    Ok(())
}

/// Stores a value in a field of the live object of this type at this place. `BadReference` comes exactly where there
/// is none, whatever the place is.
#[tactic(auto, using(crate::proofs::LawSets::storing_laws))]
pub fn store<N: Nv>(
    tx: &mut Open<N>,
    program: &Checked,
    place: u32,
    kind: u32,
    field: u32,
    value: u32,
) -> Result<(), Stop>
    requires field { field < length (fields_of (program_of program.now) kind) }
    requires objects { AreSoundObjects (program_of program.now) (objects_of (program_of program.now) (image_in (N.words tx.old))) }
    requires room { 1 ≤ room_of (N.words tx.old) }

    // A store is refused exactly where there is no such object, and then nothing has changed.
    ensures bad { is_some (object_of (objects_of (program_of program.now) (image_in (N.words tx.old))) place kind) ≡ is_found result }
    ensures kept { OnBad result (tx.new ≡ tx.old) }

    // The field of this one object has changed.
    ensures stored { OnOk result (objects_of (program_of program.now) (image_in (N.words tx.new)) ≡ with_field (objects_of (program_of program.now) (image_in (N.words tx.old))) place field value) }

    // One word of the heap has changed.
    ensures heap { OnOk result (image_in (N.words tx.new) ≡ record (image_in (N.words tx.old)) { heap = slice_set (image_in (N.words tx.old)).heap (place + 1 + field) value }) }
    ensures sound { OnOk result (AreSoundObjects (program_of program.now) (objects_of (program_of program.now) (image_in (N.words tx.new)))) }
    ensures layout { OnOk result (KeepsLayout (program_of program.now) (image_in (N.words tx.old)) (image_in (N.words tx.new))) }
    ensures cut { OnCut result (IsShort (N.left tx.old) 4) }
    ensures dark { OnCut result (N.left tx.new ≡ Some 0) }
    ensures lent { IsLent N.Nv tx.old tx.new }
    ensures within { OnOk result (IsWithin N.Nv tx.old tx.new 1) }
{
    if !is_object(tx, program, place, kind) {
        return Err(Stop::BadReference);
    }
    match put(tx, place + 1 + field, value) {
        Ok(()) => Ok(()),
        Err(Cut) => Err(Stop::Cut),
    }
}
