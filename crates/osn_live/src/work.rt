//! A reader at work through a list of questions.
ghost use Rattle.std.specs.Prelude.{◌≡◌, length, IfOk, IfErr, OnOk};
ghost use Rattle.osn_days.specs.Rules.{newest_rules};
ghost use Rattle.osn_live.specs.Desk.{AreReplies};
ghost use Rattle.osn_live.specs.InsideWork.{IsOfPassing, IsWork};
ghost use Rattle.osn_live.specs.InsideTurns.{HasCalled};

use crate::gate::Gate;
use crate::reader::Reader;
use crate::turns::Turns;
use crate::work_fault::WorkFault;
use osn_core::Reply;
use osn_register::Query;
use std::alloc::Global;
use std::snapshot::Snapshot;
use std::thread::Promise;

/// A reader that has worked, with the replies that it got.
#[derive(Drop)]
pub struct WorkResult {
    pub reader: Reader,
    pub replies: Result<Vec<Reply>, WorkFault>,
}

/// What a reader is started with. It exists in proofs alone: what the reader gives back is its work
/// on that.
#[derive(Drop)]
pub struct Works<G>(Snapshot<Reader>, Snapshot<Vec<Query>>, Snapshot<G>, u32);

impl<G: Gate> Promise<WorkResult> for Works<G> {
    ghost use Rattle.osn_live.specs.InsideWork.{IsWork};

    ghost kept_by = { λ p w. IsWork G.is_open G.let_pass G.saw_end p.2.value p.3 p.0.value
        p.1.value.items w };
}

impl<G> Works<G> {
    pub fn of(reader: &Reader, questions: &Vec<Query>, gate: &G, who: u32) -> Works<G>
        ensures reader { result.0.value ≡ reader.now }
        ensures questions { result.1.value ≡ questions.now }
        ensures gate { result.2.value ≡ gate.now }
        ensures who { result.3 ≡ who }
    {
        Works(
            Snapshot::of(reader),
            Snapshot::of(questions),
            Snapshot::of(gate),
            who,
        )
    }
}

/// Asks all questions in order, each between the two calls of its turn.
fn answer_all<G: Gate>(
    alloc: Global,
    turns: &mut Turns<'_, G>,
    reader: &mut Reader,
    questions: &[Query],
) -> Result<Vec<Reply>, WorkFault>
    requires begun { turns.old.begun ≡ 0 }
    requires ended { turns.old.ended ≡ 0 }
    ensures calls { OnOk result
        (HasCalled G.let_pass G.saw_end turns.old turns.new (length questions.now)) }
    ensures origin { reader.new.origin ≡ reader.old.origin }
    ensures replies { IfOk result (λ rs.
        AreReplies newest_rules reader.old.origin.limits reader.new.seen 0 questions.now rs.items) }
    ensures gate { IfErr result (IsOfPassing (G.is_open turns.old.gate.now)) }
{
    let mut replies = Vec::new(alloc);
    for question in questions {
        turns.begin()?;
        let reply = reader.ask(question)?;
        replies.push(reply)?;
        turns.end();
    }
    Ok(replies)
}

/// Asks all questions in order.
pub fn work<G: Gate>(
    alloc: Global,
    gate: &G,
    who: u32,
    reader: Reader,
    questions: &[Query],
) -> WorkResult
    ensures { IsWork G.is_open G.let_pass G.saw_end gate.now who reader questions.now result }
{
    let mut reader = reader;
    let mut turns = Turns::new(gate, who);
    let replies = answer_all(alloc, &mut turns, &mut reader, questions);
    WorkResult { reader, replies }
}
