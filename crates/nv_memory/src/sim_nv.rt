// The only device: words in memory.
ghost use Rattle.std.specs.Prelude.{◌≡◌, ◌+◌, ◌<◌, ◌≤◌, ◌^◌, [], None, All, length, take, drop, map, replicate, IfOk, vec_len};
ghost use Rattle.std.specs.Option.{ForSome};
ghost use Rattle.nv_memory.specs.Blank.{blank_words};
ghost use Rattle.nv_memory.specs.declared.nv.TheConstants.{WORDS};

use crate::{Cut, NoMemory, Nv, WORDS};
use std::alloc::Global;

/// What was planned for a device, and how its boots ended.
///
/// The budgets are all that were planned. Each has an image, of which the first `used` hold the words at the ends of
/// the boots so far, so the budget that counts now is the one at `used`.
#[derive(Drop)]
struct Plan {
    budgets: Vec<u32>,
    images: Vec<Vec<u32>>,
    used: usize,
    ghost images_sized: { All (λ image. length image.items ≡ WORDS) images.items },
    ghost an_image_each: { vec_len images ≡ vec_len budgets },
    ghost used_front: { used ≤ vec_len images },
}

/// A device in memory. It begins blank and on mains. Its plan, which only a cut needs, stands in a place of its own, since
/// the device goes from call to call by value.
#[derive(Drop)]
pub struct SimNv {
    words: Vec<u32>,
    left: Option<u32>,
    plan: Box<Plan>,
    ghost sized: { length words.items ≡ WORDS },
    ghost fits: { All (λ word. word < 2 ^ 32) words.items },
    ghost one_more: { ForSome left (λ _. plan.value.used < vec_len plan.value.images) },
}

impl SimNv {
    /// A blank device, which is on mains. It takes the memory for its words.
    pub fn blank(alloc: Global) -> Result<SimNv, NoMemory>
        ensures words { IfOk result (λ nv. ⟦<SimNv as Nv>⟧.words nv ≡ blank_words) }
        ensures left { IfOk result (λ nv. ⟦<SimNv as Nv>⟧.left nv ≡ None) }
        ensures to_come { IfOk result (λ nv. ⟦<SimNv as Nv>⟧.to_come nv ≡ []) }
        ensures ends { IfOk result (λ nv. ⟦<SimNv as Nv>⟧.ends nv ≡ []) }
    {
        let words = blank_image(alloc)?;
        let plan = Plan {
            budgets: Vec::new(alloc),
            images: Vec::new(alloc),
            used: 0,
        };
        match Box::new(alloc, plan) {
            Ok(plan) => Ok(SimNv {
                words,
                left: None,
                plan,
            }),
            Err(_) => Err(NoMemory),
        }
    }

    /// The words.
    pub fn words(&self) -> &[u32]
        ensures words { result.now ≡ ⟦<SimNv as Nv>⟧.words self.now }
    {
        &self.words
    }

    /// The words at the end of each boot that was cut, the first boot first.
    pub fn ends(&self) -> &[Vec<u32>]
        ensures ends { map (λ end. end.items) result.now ≡ ⟦<SimNv as Nv>⟧.ends self.now }
    {
        &self.plan.images[..self.plan.used]
    }
}

impl Nv for SimNv {
    ghost words = { λ nv. nv.words.items };

    ghost left = { λ nv. nv.left };

    ghost to_come = { λ nv. drop (nv.plan.value.used + 1) nv.plan.value.budgets.items };

    ghost ends = { λ nv. map (λ image. image.items) (take nv.plan.value.used nv.plan.value.images.items) };

    ghost sized = { λ nv. nv.sized };

    ghost use Rattle.nv_memory.specs.Blank.{slice_index-lt};

    ghost fits = { λ nv at. slice_index-lt nv.words.items at nv.fits };

    fn plan(&mut self, alloc: Global, budgets: &[u32]) -> Result<(), NoMemory> {
        let kept = copy_of(alloc, budgets)?;
        let images = images(alloc, budgets.len())?;
        *self.plan = Plan {
            budgets: kept,
            images,
            used: 0,
        };
        self.left = budgets.first().copied();
        Ok(())
    }

    fn read(&self, at: u32) -> u32 {
        self.words[at as usize]
    }

    fn write(&mut self, at: u32, value: u32) -> Result<(), Cut> {
        if let Some(left) = self.left {
            if left == 0 {
                return Err(Cut);
            }
            self.left = Some(left - 1);
        }
        self.words[at as usize] = value;
        Ok(())
    }

    fn power_up(&mut self) {
        let plan = &mut *self.plan;
        let used = plan.used;
        plan.images[used].copy_from_slice(&self.words);
        plan.used = used + 1;
        self.left = plan.budgets.get(plan.used).copied();
    }
}

/// A copy of some numbers.
fn copy_of(alloc: Global, numbers: &[u32]) -> Result<Vec<u32>, NoMemory>
    ensures copied { IfOk result (λ copy. copy.items ≡ numbers.now) }
{
    match numbers.to_vec(alloc) {
        Ok(copy) => Ok(copy),
        Err(_) => Err(NoMemory),
    }
}

/// So many words, each 0.
fn zeros(alloc: Global, count: usize) -> Result<Vec<u32>, NoMemory>
    ensures zeros { IfOk result (λ zeros. zeros.items ≡ replicate count 0) }
    ensures sized { IfOk result (λ zeros. length zeros.items ≡ count) }
    ensures fits { IfOk result (λ zeros. All (λ word. word < 2 ^ 32) zeros.items) }
{
    match vec![in alloc; 0u32; count] {
        Ok(zeros) => Ok(zeros),
        Err(_) => Err(NoMemory),
    }
}

/// The words of a blank device.
#[tactic(auto, unfolding(crate::specs::Blank::blank_words))]
fn blank_image(alloc: Global) -> Result<Vec<u32>, NoMemory>
    ensures blank { IfOk result (λ image. image.items ≡ blank_words) }
    ensures sized { IfOk result (λ image. length image.items ≡ WORDS) }
    ensures fits { IfOk result (λ image. All (λ word. word < 2 ^ 32) image.items) }
{
    let image = zeros(alloc, WORDS as usize)?;
    Ok(image)
}

/// So many blank images.
fn images(alloc: Global, count: usize) -> Result<Vec<Vec<u32>>, NoMemory>
    ensures count { IfOk result (λ images. vec_len images ≡ count) }
    ensures sized { IfOk result (λ images. All (λ image. length image.items ≡ WORDS) images.items) }
{
    let mut images = Vec::new(alloc);
    for _ in 0..count {
        let image = blank_image(alloc)?;
        if images.push(image).is_err() {
            return Err(NoMemory);
        }
    }
    Ok(images)
}
