//! Readers and one editor at work at the same time, each in its own thread.
ghost use Rattle.std.specs.Prelude.{◌≡◌, ◌≤◌, length, vec_len, IfOk, IfErr, OnOk, Ok, Err};
ghost use Rattle.std.specs.List.{All};
ghost use Rattle.osn_days.specs.Rules.{newest_rules};
ghost use Rattle.osn_core.specs.Script.{script_after, editions_of};
ghost use Rattle.osn_live.specs.declared.protocol.Origin.{Origin};
ghost use Rattle.osn_live.specs.Desk.{AreReplies, AreAll, HearsOfAll};
ghost use Rattle.osn_live.specs.Faults.{IsBadCount, IsDeskFault, IsOfGate};
ghost use Rattle.osn_live.specs.InsideDesk.{IsFaultAt, IsFaultOf, IsOfTheirGate, AreStarted, AreAt};
ghost use Rattle.osn_live.specs.InsideDesk.{AreNumbered, NamesReader, CallTheirGate};
ghost use Rattle.osn_live.specs.InsideTurns.{HasCalled};
ghost use Rattle.osn_live.specs.InsideWork.{IsOfPassing, IsWork};
ghost use Rattle.osn_live.specs.Running.{IsNew};

use crate::editor::Editor;
use crate::faults::DeskFault;
use crate::gate::Gate;
use crate::note::Note;
use crate::opening::open;
use crate::reader::Reader;
use crate::turns::Turns;
use crate::work::{WorkResult, Works, work};
use crate::work_fault::WorkFault;
use osn_core::{Command, Reply};
use osn_register::{Limits, Query};
use std::alloc::Global;
use std::sync::Wait;
use std::thread;
use std::thread::{PromisedHandle, Scope, Threads};

type Handle<G> = PromisedHandle<WorkResult, Works<G>>;

/// Starts one reader at work for each list.
fn start_all<'s, E, G: Gate + Sync>(
    scope: &Scope<'s, E>,
    alloc: Global,
    gate: &'s G,
    readers: Vec<Reader>,
    lists: &'s [Vec<Query>],
) -> Result<Vec<Handle<G>>, WorkFault>
    requires few { length lists.now ≤ 64 }
    requires count { vec_len readers ≡ length lists.now }
    ensures started { IfOk result (λ hs. (o : Origin) → All (λ r. r.origin ≡ o) readers.items →
        AreStarted o hs.items lists.now) }
    ensures at { IfOk result (λ hs. AreAt gate.now hs.items) }
    ensures numbers { IfOk result (λ hs. AreNumbered 1 hs.items) }
    ensures gate { IfErr result (IsOfPassing (G.is_open gate.now)) }
{
    let mut handles = Vec::new(alloc);
    let mut who = 0u32;
    for (list, reader) in lists.iter().zip(readers) {
        who += 1;
        let promise = Works::of(&reader, list, gate, who);
        let Ok(handle) = scope.spawn_with(promise, move || {
            work(alloc, gate, who, reader, list.as_slice())
        }) else {
            return Err(WorkFault::NoPlace);
        };
        handles.push(handle)?;
    }
    Ok(handles)
}

/// Runs the editor, each command between the two calls of its turn. Refused commands are ignored.
#[tactic(auto, using(crate::proofs::Hears::hears_more))]
fn edit_all<R: Wait, G: Gate>(
    rt: &R,
    turns: &mut Turns<'_, G>,
    editor: &mut Editor,
    commands: &[Command],
) -> Result<(), WorkFault>
    requires begun { turns.old.begun ≡ 0 }
    requires ended { turns.old.ended ≡ 0 }
    ensures calls { OnOk result
        (HasCalled G.let_pass G.saw_end turns.old turns.new (length commands.now)) }
    ensures origin { editor.new.origin ≡ editor.old.origin }
    ensures ok { OnOk result
        (editor.new.object ≡ script_after newest_rules editor.old.object commands.now) }
    ensures gate { IfErr result (IsOfPassing (G.is_open turns.old.gate.now)) }
{
    for command in commands {
        turns.begin()?;
        editor.execute(rt, command)?;
        turns.end();
    }
    Ok(())
}

/// Returns the replies to one reader, compared with what was published in the end.
fn check_against_note(
    work_result: WorkResult,
    note: Note,
    who: u32,
    questions: &[Query],
) -> Result<Vec<Reply>, DeskFault>
    requires origin { work_result.reader.origin ≡ note.origin }
    requires replies { IfOk work_result.replies (λ rs. AreReplies newest_rules note.origin.limits
        work_result.reader.seen 0 questions.now rs.items) }
    ensures replies { IfOk result (λ rs.
        AreReplies newest_rules note.origin.limits note.batches 0 questions.now rs.items) }
    ensures same { IfOk result (λ rs. work_result.replies ≡ Ok rs) }
    ensures fault { IfErr result
        (IsFaultOf who (length work_result.reader.seen) (length note.batches) work_result.replies) }
{
    let WorkResult { reader, replies } = work_result;
    let mut reader = reader;
    let (last, editions) = (reader.edition(), note.edition());
    if last > editions {
        return Err(DeskFault::HistoryBroken {
            reader: who,
            last,
            editions,
        });
    }
    reader.learn(note);
    Ok(replies?)
}

/// Returns the replies to all readers, once each has ended.
fn collect<R: Threads, G: Gate>(
    rt: &R,
    alloc: Global,
    editor: &Editor,
    handles: Vec<Handle<G>>,
    lists: &[Vec<Query>],
) -> Result<Vec<Vec<Reply>>, DeskFault>
    requires few { length lists.now ≤ 64 }
    requires started { AreStarted editor.now.origin handles.items lists.now }
    requires numbers { AreNumbered 1 handles.items }
    ensures calls { OnOk result
        (CallTheirGate G.let_pass G.saw_end handles.items lists.now) }
    ensures replies { IfOk result (λ all. AreAll newest_rules editor.now.origin.limits
        editor.now.object.batches lists.now all.items) }
    ensures fault { IfErr result
        (IsFaultAt (length lists.now) (length editor.now.object.batches)) }
    ensures names { IfErr result (NamesReader (λ p w. IsWork G.is_open G.let_pass G.saw_end
        p.2.value p.3 p.0.value p.1.value.items w) handles.items) }
    ensures gate { IfErr result (IsOfTheirGate G.is_open handles.items) }
{
    let mut all = Vec::new(alloc);
    let mut who = 0u32;
    for (list, handle) in lists.iter().zip(handles) {
        who += 1;
        let work_result = handle.join(rt);
        let replies = check_against_note(work_result, editor.note(), who, list.as_slice())?;
        all.push(replies)?;
    }
    Ok(all)
}

/// Runs the readers, each in its thread, and the editor in this one.
#[tactic(auto, using(crate::proofs::AtWork::work_at))]
fn at_desk<'s, E, R: Threads + Wait, G: Gate + Sync>(
    rt: &R,
    scope: &Scope<'s, E>,
    alloc: Global,
    gate: &'s G,
    editor: &mut Editor,
    readers: Vec<Reader>,
    commands: &[Command],
    lists: &'s [Vec<Query>],
) -> Result<Vec<Vec<Reply>>, DeskFault>
    requires few { length lists.now ≤ 64 }
    requires count { vec_len readers ≡ length lists.now }
    requires new { All (λ r. IsNew editor.old r) readers.items }
    ensures hears { OnOk result
        (HearsOfAll G.let_pass G.saw_end gate.now (length commands.now) lists.now) }
    ensures replies { IfOk result (λ all. AreAll newest_rules editor.old.origin.limits
        (script_after newest_rules editor.old.object commands.now).batches lists.now all.items) }
    ensures fault { IfErr result (IsFaultAt (length lists.now)
        (length (script_after newest_rules editor.old.object commands.now).batches)) }
    ensures gate { IfErr result (IsOfGate (G.is_open gate.now)) }
{
    let handles = start_all(scope, alloc, gate, readers, lists)?;
    edit_all(rt, &mut Turns::new(gate, 0), editor, commands)?;
    collect(rt, alloc, editor, handles, lists)
}

/// Runs an editor through commands, and at the same time a reader through each list of questions,
/// each in its own thread, with calls of a gate around each item. Refused commands are ignored.
///
/// Each question has exactly one reply, in its place: the definition's under the first editions of
/// the script, as many as the reply names. For one reader their number never falls. The gate let
/// each item pass, and saw its end.
///
/// # Errors
///
/// `BadCount` if the lists are not 1 to 64. Otherwise `NoMemory` if memory runs out, `NoPlace` if a
/// reader finds no place or no thread, and `GateClosed` if the gate returned false. `HistoryBroken`
/// always has the numbers that show it. On an error all threads have ended.
#[tactic(auto, using(crate::proofs::AtWork::open_at, crate::proofs::AtWork::opened_at))]
pub fn run_desk<R: Threads + Wait, G: Gate + Sync>(
    rt: &R,
    alloc: Global,
    limits: Limits,
    gate: &G,
    commands: &[Command],
    lists: &[Vec<Query>],
) -> Result<Vec<Vec<Reply>>, DeskFault>
    ensures bad_count { IsBadCount (length lists.now) → result ≡ Err DeskFault.BadCount }
    ensures hears { OnOk result
        (HearsOfAll G.let_pass G.saw_end gate.now (length commands.now) lists.now) }
    ensures replies { IfOk result (λ all.
        AreAll newest_rules limits
        (editions_of newest_rules limits commands.now) lists.now all.items) }
    ensures fault { IfErr result
        (IsDeskFault (length lists.now) (length (editions_of newest_rules limits commands.now))) }
    ensures gate { IfErr result (IsOfGate (G.is_open gate.now)) }
{
    let Ok(count) = u32::try_from(lists.len()) else {
        return Err(DeskFault::BadCount);
    };
    let (mut editor, readers) = open(rt, alloc, limits, count)?;
    let shared_editor = &mut editor;
    let all = thread::scope(
        thread::scope_env(),
        rt,
        |scope| -> Result<Vec<Vec<Reply>>, DeskFault>
            requires few { length lists.now ≤ 64 }
            requires count { vec_len readers ≡ length lists.now }
            requires new { All (λ r. IsNew shared_editor.now r) readers.items }
            ensures hears { OnOk result (HearsOfAll G.let_pass G.saw_end gate.entry.now
                (length commands.entry.now) lists.entry.now) }
            ensures replies { IfOk result (λ all. AreAll newest_rules
                shared_editor.entry.now.origin.limits
                (script_after newest_rules shared_editor.entry.now.object
                commands.entry.now).batches
                lists.entry.now all.items) }
            ensures fault { IfErr result (IsFaultAt (length lists.entry.now) (length
                (script_after newest_rules shared_editor.entry.now.object
                commands.entry.now).batches)) }
            ensures gate { IfErr result (IsOfGate (G.is_open gate.entry.now)) }
        {
            at_desk(
                rt,
                scope,
                alloc,
                gate,
                shared_editor,
                readers,
                commands,
                lists,
            )
        },
    );
    editor.close(rt);
    all
}
