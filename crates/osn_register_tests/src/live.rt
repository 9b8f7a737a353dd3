//! The running register: an editor and readers in turn.
ghost use Rattle.std.specs.Prelude.{◌≡◌, IfOk, IfSome};
ghost use Rattle.std.specs.List.{All};

use crate::compare::same;
use crate::register_lines::{edit_of, line_of};
use osn_live::{AskFault, Editor, Note, PublishFault, Reader, open};
use osn_register::{Limits, Query};
use osn_test_texts::joined;
use std::alloc::Global;
use std::process::Abort;
use std::sync::Wait;
use std::test::Fail;

/// The additions of territories.
const ROME: &str = r#"{"op":"add_land","code":"RM","name":"Rome","calendar":"julian",
  "style":"january","rule":"julian"}"#;

const BRITAIN: &str = r#"{"op":"add_land","code":"GB","name":"Great Britain","calendar":"julian",
  "style":"january","rule":"julian"}"#;

/// The replies to a reader about the territories before and after the editions.
pub const NONE: &str = "{\"answer\":{\"lands\":[]},\"edition\":0,\"reader\":1}\n";

pub const ONE: &str = "{\"answer\":{\"lands\":[{\"code\":\"RM\",\"name\":\"Rome\"}]},\
\"edition\":1,\"reader\":1}\n";

const TWO: &str = r#"{"answer":{"lands":[{"code":"RM","name":"Rome"},{"code":"GB",
  "name":"Great Britain"}]},"edition":2,"reader":1}
"#;

/// Checks the line of the reply to the reader about the territories.
fn expect_reply(rt: &impl Abort, alloc: Global, reader: &mut Reader, expected: &str)
    ensures { reader.new.origin ≡ reader.old.origin }
{
    let reply = reader.ask(&Query::Lands).expect(rt, "memory");
    let expected = joined(alloc, expected).expect(rt, "memory");
    same(rt, line_of(rt, alloc, reply).as_str(), expected.as_str());
}

/// Stages the edit of a line.
fn staged(rt: &impl Abort, alloc: Global, editor: &mut Editor, line: &str)
    ensures { editor.new.origin ≡ editor.old.origin }
{
    let edit = edit_of(rt, alloc, line);
    editor.stage(&edit).expect(rt, line);
}

/// Stages the edit of a line and publishes it.
fn published<R: Wait + Abort>(
    rt: &R,
    alloc: Global,
    editor: &mut Editor,
    line: &str,
) -> Result<Note, PublishFault>
    ensures same { editor.new.origin ≡ editor.old.origin }
    ensures note { IfOk result (λ n. n.origin ≡ editor.old.origin) }
{
    staged(rt, alloc, editor, line);
    editor.publish(rt)
}

/// Returns a reader of this editor.
#[tactic(auto, using(crate::proofs::LiveLemmas::all_last))]
fn next_reader(editor: &Editor, readers: &mut Vec<Reader>) -> Option<Reader>
    requires { All (λ r. r.origin ≡ editor.now.origin) readers.old.items }
    ensures rest { All (λ r. r.origin ≡ editor.now.origin) readers.new.items }
    ensures one { IfSome result (λ r. r.origin ≡ editor.now.origin) }
{
    readers.pop()
}

/// Checks an editor and a reader in turn.
fn in_turn<R: Wait + Abort>(
    rt: &R,
    alloc: Global,
    editor: &mut Editor,
    reader: &mut Reader,
) -> Result<(), Fail>
    requires { reader.old.origin ≡ editor.old.origin }
{
    expect_reply(rt, alloc, reader, NONE);
    let note = published(rt, alloc, editor, ROME)?;
    same(rt, note.edition(), 1);
    reader.learn(note);
    expect_reply(rt, alloc, reader, ONE);
    let fault = editor.publish(rt).err();
    same(rt, fault, Some(PublishFault::NothingPending));
    Ok(())
}

#[tactic(auto, using(crate::proofs::LiveLemmas::all_new))]
fn one_reader<R: Wait + Abort>(rt: &R, alloc: Global) -> Result<(), Fail> {
    let (mut editor, mut readers) = open(rt, alloc, Limits::standard(), 1)?;
    let Some(mut reader) = next_reader(&editor, &mut readers) else {
        editor.close(rt);
        return Err(Fail::new("no reader"));
    };
    let ended = in_turn(rt, alloc, &mut editor, &mut reader);
    editor.close(rt);
    let fault = reader.ask(&Query::Lands).err();
    same(rt, fault, Some(AskFault::NoPlace));
    ended
}

#[test]
fn a_reader_learns_what_was_published(rt: HostRuntime) -> Result<(), Fail> {
    one_reader(&rt, rt.alloc())
}

/// Checks that notes are learnt in another order than they were made in.
fn notes<R: Wait + Abort>(
    rt: &R,
    alloc: Global,
    editor: &mut Editor,
    one: &mut Reader,
    two: &mut Reader,
) -> Result<(), Fail>
    requires one { one.old.origin ≡ editor.old.origin }
    requires two { two.old.origin ≡ editor.old.origin }
{
    let first = published(rt, alloc, editor, ROME)?;
    let again = editor.note();
    let second = published(rt, alloc, editor, BRITAIN)?;
    two.learn(second);
    expect_reply(rt, alloc, two, TWO);
    two.learn(first);
    expect_reply(rt, alloc, two, TWO);
    one.learn(again);
    let edition = one.ask(&Query::Lands)?.edition;
    assert!(rt; edition == 1 || edition == 2);
    Ok(())
}

#[tactic(auto, using(crate::proofs::LiveLemmas::all_new))]
fn two_readers<R: Wait + Abort>(rt: &R, alloc: Global) -> Result<(), Fail> {
    let (mut editor, mut readers) = open(rt, alloc, Limits::standard(), 2)?;
    let two = next_reader(&editor, &mut readers);
    let one = next_reader(&editor, &mut readers);
    let (Some(mut one), Some(mut two)) = (one, two) else {
        editor.close(rt);
        return Err(Fail::new("no readers"));
    };
    let ended = notes(rt, alloc, &mut editor, &mut one, &mut two);
    editor.close(rt);
    ended
}

#[test]
fn notes_are_learnt_in_any_order(rt: HostRuntime) -> Result<(), Fail> {
    two_readers(&rt, rt.alloc())
}
