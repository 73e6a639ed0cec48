// Reading a field of a live object.
ghost use Rattle.std.specs.Prelude.{◌≡◌};
ghost use Rattle.thread_tree.specs.Program.{program_of};
ghost use Rattle.kernel_model.specs.Objects.{object_of};
ghost use Rattle.kernel_image.specs.Decoded.{image_in};
ghost use Rattle.persistent_objects.specs.Objects.{objects_of, value_at, value_in};

use crate::declared::field_count;
use crate::finding::is_object;
use crate::stop::BadReference;
use kernel_image::Cell;
use thread_check::Checked;
use undo_journal::Words;

/// The value of a field of the live object of this type at this place; 0 for a field that the type doesn't have.
/// `BadReference` comes exactly where there is no such object, whatever the place is.
pub fn load<W: Words>(
    words: &W,
    program: &Checked,
    place: u32,
    kind: u32,
    field: u32,
) -> Result<u32, BadReference>
    ensures found { value_in result ≡ value_at (object_of (objects_of (program_of program.now) (image_in (W.present words.now))) place kind) field }
{
    if !is_object(words, program, place, kind) {
        return Err(BadReference);
    }
    if field >= field_count(program, kind) {
        return Ok(0);
    }
    let at = place + 1 + field;
    if at >= 4_096 {
        return Ok(0);
    }
    Ok(kernel_image::load(words, Cell::HeapWord(at)))
}
