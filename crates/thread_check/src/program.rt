ghost use Rattle.std.specs.Prelude.{◌≡◌, ◌<◌, ◌≤◌, length, slice_get, take, false, Some, None, OnOk, IfErr};
ghost use Rattle.thread_check.specs.Declarations.{declaration_rule, declarations_rule, with_function, IsFew};
ghost use Rattle.thread_check.specs.Faults.{no_names, fault_in, IsTold};

use crate::fault::CheckFault;
use crate::names::Names;
use crate::peak::{FunctionPeak, Peak};
use crate::scope::Scope;
use std::alloc::{AllocError, Global};
use thread_tree::{Decl, LOOPS, List};

/// The peaks of functions after a declaration whose body had this peak.
#[tactic(auto, unfolding(crate::specs::Declarations::with_function))]
fn add_function(
    functions: &mut Vec<FunctionPeak>,
    decl: &Decl,
    peak: Peak,
) -> Result<(), AllocError>
    ensures { OnOk result (functions.new.items ≡ with_function decl.now peak functions.old.items) }
{
    match decl {
        Decl::Kind(_, _) => Ok(()),
        Decl::Object(_, _) => Ok(()),
        Decl::Queue(_, _, _) => Ok(()),
        Decl::Semaphore(_, _, _) => Ok(()),
        Decl::Function(name, _, _) => {
            let function = FunctionPeak {
                name: name.name,
                peak,
            };
            functions.insert(0, function)?;
            Ok(())
        }
        Decl::Thread(_, _, _, _) => Ok(()),
        Decl::Start(_, _, _) => Ok(()),
    }
}

/// The declaration at a place, behind so many persistent loops.
#[tactic(auto, using(crate::proofs::Steps::take_at))]
fn declare_at(
    decls: &List<Decl>,
    at: usize,
    decl: &Decl,
    functions: &Vec<FunctionPeak>,
    loops: u32,
) -> Result<Scope, CheckFault>
    requires place { slice_get decls.now at ≡ Some decl.now }
    requires within { at < length decls.now }
    requires few { IsFew (take at decls.now) }
    requires loops { loops ≤ LOOPS }
    ensures { result ≡ declaration_rule (record { declarations = take at decls.now; functions = functions.now.items; in_function = false }) loops decl.now }
{
    let _count = decls.len();
    let before = Names::of(decls, at, functions, false);
    let with = Names::of(decls, at + 1, functions, false);
    before.declare(&with, decl, loops)
}

/// The declarations of a program.
///
/// # Errors
///
/// The first fault in order of the text; `NoMemory` where there was none for the peaks of functions.
pub(crate) fn declarations(alloc: Global, decls: &List<Decl>) -> Result<(), CheckFault>
    ensures ok { OnOk result (fault_in (declarations_rule no_names 0 decls.now) ≡ None) }
    ensures err { IfErr result (λ fault. IsTold (fault_in (declarations_rule no_names 0 decls.now)) fault) }
{
    let mut functions: Vec<FunctionPeak> = Vec::new(alloc);
    let mut loops = 0;
    for i in 0..decls.len() {
        let decl = decls.get(i);
        match declare_at(decls, i, decl, &functions, loops) {
            Ok(scope) => {
                loops = scope.loops();
                match add_function(&mut functions, decl, scope.peak()) {
                    Ok(()) => {}
                    Err(_) => return Err(CheckFault::NoMemory),
                }
            }
            Err(fault) => return Err(fault),
        }
    }
    Ok(())
}
