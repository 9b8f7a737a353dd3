//! How a running register is opened: its editor, and a place for each reader.
ghost use Rattle.std.specs.Prelude.{◌≡◌, ◌<◌, ◌≤◌, [], vec_len, IfOk, IfErr, OnOk, Err};
ghost use Rattle.std.specs.List.{All};
ghost use Rattle.osn_core.specs.Sequential.{empty_object};
ghost use Rattle.osn_live.specs.Faults.{IsBadCount};
ghost use Rattle.osn_live.specs.Running.{IsNew};

use crate::edition::Edition;
use crate::editor::{EditionWriter, Editor, show};
use crate::faults::OpenFault;
use crate::history::begin;
use crate::reader::Reader;
use left_right::writer::Writer;
use osn_core::MOST_READERS;
use osn_register::{Limits, Register};
use std::alloc::{AllocError, Global};
use std::sync::{Arc, Wait};

fn start<R: Wait>(rt: &R, alloc: Global, limits: Limits, readers: u32) -> Result<Editor, AllocError>
    requires { 0 < readers }
    ensures object { IfOk result (λ e. e.object ≡ empty_object limits) }
    ensures limits { IfOk result (λ e. e.origin.limits ≡ limits) }
{
    let (history, certificate) = begin();
    let register = Arc::new(alloc, Register::new(alloc, limits))?;
    let first = Edition::new(limits, register, certificate.again());
    let second = first.share()?;
    let third = first.share()?;
    let copies: EditionWriter = Writer::new(alloc, first, second, readers as usize)?;
    let (copies, outcome) = show(copies, third, rt);
    match outcome {
        Ok(()) => Ok(Editor::begin(alloc, limits, copies, history, certificate)),
        Err(_) => {
            copies.take(rt);
            Err(AllocError)
        }
    }
}

fn places(alloc: Global, editor: &mut Editor, readers: u32) -> Result<Vec<Reader>, OpenFault>
    requires { editor.old.object.batches ≡ [] }
    ensures same { editor.new ≡ editor.old }
    ensures count { IfOk result (λ v. vec_len v ≡ readers) }
    ensures new { IfOk result (λ v. All (λ r. IsNew editor.old r) v.items) }
    ensures fault { IfErr result (λ f. f ≡ OpenFault.BadCount → ⊥) }
{
    let mut all = Vec::new(alloc);
    for _ in 0..readers {
        let Ok(reader) = editor.reader() else {
            return Err(OpenFault::NoPlace);
        };
        all.push(reader)?;
    }
    Ok(all)
}

/// Returns an editor with nothing published and nothing pending, and that many readers, 1 to 64,
/// that have seen nothing.
///
/// # Errors
///
/// `BadCount` for another number of readers. Otherwise `NoMemory` if memory runs out, or `NoPlace`
/// if a reader finds no place. On an error, what was made is ended, which may wait.
pub fn open<R: Wait>(
    rt: &R,
    alloc: Global,
    limits: Limits,
    readers: u32,
) -> Result<(Editor, Vec<Reader>), OpenFault>
    ensures lawful { OnOk result ((1 ≤ readers) × (readers ≤ 64)) }
    ensures editor { IfOk result (λ t.
        (t.0.object ≡ empty_object limits) × (t.0.origin.limits ≡ limits)) }
    ensures count { IfOk result (λ t. vec_len t.1 ≡ readers) }
    ensures readers { IfOk result (λ t. All (λ r. IsNew t.0 r) t.1.items) }
    ensures bad_count { IsBadCount readers → result ≡ Err OpenFault.BadCount }
    ensures refused { IfErr result (λ f. f ≡ OpenFault.BadCount → IsBadCount readers) }
{
    if readers == 0 || readers > MOST_READERS {
        return Err(OpenFault::BadCount);
    }
    let mut editor = start(rt, alloc, limits, readers)?;
    match places(alloc, &mut editor, readers) {
        Ok(readers) => Ok((editor, readers)),
        Err(fault) => {
            editor.close(rt);
            Err(fault)
        }
    }
}
