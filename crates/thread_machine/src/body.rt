ghost use Rattle.std.specs.Prelude.{◌≡◌, ◌≤◌, length, option_map, slice_get};
ghost use Rattle.std.specs.Option.{option_to_list};
ghost use Rattle.thread_tree.specs.Program.{function_of, program_of};
ghost use Rattle.thread_machine.specs.Context.{body_of, template_body};
ghost use Rattle.thread_machine.specs.Seen.{body_in, function_in, seen, thread_in};

use thread_tree::{At, Block, Decl, List, Tree};

/// The body of a function or a thread, with its parameters.
#[derive(Clone, Copy, Debug, Drop)]
pub struct Body<'a> {
    pub parameters: &'a List<At>,
    pub block: &'a Block,
}

/// The body of the function of this name, if there is one.
#[tactic(auto, using(crate::proofs::BodyLemmas::function_laws))]
pub fn function<'a>(tree: &'a Tree, name: u32) -> Option<Body<'a>>
    ensures found { option_map seen result ≡ option_map body_of (function_of (program_of tree.now) name) }
{
    for at in 0..tree.decls.len() {
        if let Some(body) = function_in(tree.decls.get(at), name) {
            return Some(body);
        }
    }
    None
}

/// The body of the thread template of this number, if there is one.
#[tactic(auto, using(crate::proofs::BodyLemmas::template_laws))]
pub fn template<'a>(tree: &'a Tree, number: usize) -> Option<Body<'a>>
    ensures found { option_map seen result ≡ template_body (program_of tree.now) number }
{
    let mut left = number;
    for at in 0..tree.decls.len() {
        if let Some(body) = thread_in(tree.decls.get(at)) {
            if left == 0 {
                return Some(body);
            }
            left -= 1;
        }
    }
    None
}

/// The body of this number, counted over functions and threads in order of the text, if there is one.
#[tactic(auto, using(crate::proofs::BodyLemmas::body_laws))]
pub fn numbered<'a>(tree: &'a Tree, number: usize) -> Option<Body<'a>>
    ensures found { option_map seen result ≡ slice_get (program_of tree.now).bodies number }
{
    let mut left = number;
    for at in 0..tree.decls.len() {
        if let Some(body) = body_in(tree.decls.get(at)) {
            if left == 0 {
                return Some(body);
            }
            left -= 1;
        }
    }
    None
}

/// The number of the body of a thread template among all bodies.
#[tactic(auto, using(crate::proofs::BodyLemmas::number_laws))]
pub fn body_number(tree: &Tree, template: usize) -> usize
    ensures found { slice_get (program_of tree.now).bodies result ≡ template_body (program_of tree.now) template }
{
    let mut left = template;
    let mut number = 0;
    for at in 0..tree.decls.len() {
        let decl = tree.decls.get(at);
        if let Some(_) = thread_in(decl) {
            if left == 0 {
                return number;
            }
            left -= 1;
        }
        number += count_bodies(decl);
    }
    number
}

/// How many bodies a declaration has: one of a function or a thread.
fn count_bodies(decl: &Decl) -> usize
    ensures count { result ≡ length (option_to_list (body_in decl.now)) }
    ensures few { result ≤ 1 }
{
    match body_in(decl) {
        Some(_) => 1,
        None => 0,
    }
}

/// The body of a declaration, if it has one.
pub fn body_in<'a>(decl: &'a Decl) -> Option<Body<'a>>
    ensures found { option_map seen result ≡ body_in decl.now }
{
    match decl {
        Decl::Function(_, parameters, block) | Decl::Thread(_, parameters, _, block) => {
            Some(Body { parameters, block })
        }
        Decl::Kind(..) | Decl::Object(..) | Decl::Queue(..) => None,
        Decl::Semaphore(..) | Decl::Start(..) => None,
    }
}

/// The body of a declaration, if it is a function of this name.
pub fn function_in<'a>(decl: &'a Decl, name: u32) -> Option<Body<'a>>
    ensures found { option_map seen result ≡ function_in decl.now name }
{
    match decl {
        Decl::Function(declared, parameters, block) => {
            if declared.name == name {
                Some(Body { parameters, block })
            } else {
                None
            }
        }
        Decl::Kind(..) | Decl::Object(..) | Decl::Queue(..) => None,
        Decl::Semaphore(..) | Decl::Thread(..) | Decl::Start(..) => None,
    }
}

/// The body of a declaration, if it is a thread template.
fn thread_in<'a>(decl: &'a Decl) -> Option<Body<'a>>
    ensures found { option_map seen result ≡ thread_in decl.now }
{
    match decl {
        Decl::Thread(_, parameters, _, block) => Some(Body { parameters, block }),
        Decl::Kind(..) | Decl::Object(..) | Decl::Queue(..) => None,
        Decl::Semaphore(..) | Decl::Function(..) | Decl::Start(..) => None,
    }
}
