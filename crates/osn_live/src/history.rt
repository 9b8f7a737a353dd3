//! The one history of published batches. It exists in proofs alone: at run time a certificate is
//! the number of its batches.
ghost use Rattle.std.specs.Prelude.{◌≡◌, ◌+◌, ◌<◌, ◌^◌, ◌++◌, ◌∷◌, [], length, IfSome, MatchBool};
ghost use Rattle.osn_live.specs.Batches.{Begins, IsLater};
ghost use Rattle.osn_live.specs.InsideHistory.{head_of};
ghost use Rattle.osn_live.specs.Certificate.{none_of};

use logbook::{Gain, Offer, Plain, Play, Rule, Seen, Start, Word};
use osn_register::Edit;
use std::marker::Model;

/// What a batch is to the history. No value of it is made.
pub type HistoryCell = [Edit; 0];

/// The rule of the history: it is as long as its first word says.
pub struct HistoryRule;

impl Rule<HistoryCell, u64> for HistoryRule {
    ghost use Rattle.std.specs.Prelude.{[]};
    ghost use base.Fml.{ftrue};
    ghost use Rattle.osn_live.specs.InsideHistory.{HoldsLength};

    ghost holds = { λ cells log. HoldsLength cells log };

    ghost first = { [] };

    ghost hinted = { λ n log. Unit {0} };

    ghost shows = { λ log. [] };

    ghost keeps = { λ names log. ftrue };

    ghost moves = { λ ask before after answer. Unit {0} };
}

/// What the caller that adds a batch keeps of it: nothing.
pub struct Nothing;

impl Gain<HistoryCell, u64> for Nothing {
    ghost use base.Fml.{ftrue};

    ghost after = { λ names about answer. ftrue };
}

/// The step that adds a batch, if the history is as long as was thought.
pub struct Add;

impl Play<HistoryCell, u64> for Add {
    ghost use Rattle.osn_live.specs.InsideHistory.{Adds};

    ghost then = { Adds };
}

impl Plain<Vec<Edit>, HistoryCell, u64> for Add {
    ghost use Rattle.std.specs.Prelude.{None};

    ghost ask = { λ batch. batch.items };

    ghost state = { λ batch. None };
}

/// The right to add to the history. Whoever has none cannot make a batch known.
#[derive(Drop)]
pub struct History {
    head: Word<HistoryCell, u64, HistoryRule>,
}

impl Model for History {
    ghost use Rattle.std.specs.Prelude.{◌≡◌};
    ghost use Rattle.logbook.specs.Pages.{Book};
    ghost use Rattle.osn_live.specs.InsideHistory.{head_of};

    ghost Value = { Book };

    ghost view = { λ h. h.head.book };

    ghost invariant = { λ h. h.head ≡ head_of h.head.book };
}

/// The knowledge that the history of a book began with these batches.
#[derive(Drop)]
pub struct Certificate {
    count: u32,
    seen: Seen<HistoryCell, u64, HistoryRule>,
}

impl Model for Certificate {
    ghost use Rattle.osn_live.specs.Certificate.{CertificateState};

    ghost Value = { CertificateState };

    ghost use Rattle.osn_live.specs.InsideCertificate.{certificate_in, IsMeasured};

    ghost view = { certificate_in };

    ghost invariant = { IsMeasured };
}

/// Returns a new history with no batch.
pub fn begin() -> (History, Certificate)
    ensures { result.1 ≡ none_of result.0 }
{
    let (seen, mut first, _second) = Seen::open(Start::alone(), 0, 0);
    (
        History {
            head: Word::tracked(0, &mut first),
        },
        Certificate { count: 0, seen },
    )
}

impl History {
    /// Adds a batch after those of the certificate, unless the history has more of them.
    pub fn add(&self, certificate: &Certificate, batch: &Vec<Edit>) -> Option<Certificate>
        requires book { certificate.now.book ≡ self.now }
        requires room { length certificate.now.batches + 1 < 2 ^ 32 }
        ensures { IfSome result (λ c.
            c ≡ record certificate.now
            { batches = certificate.now.batches ++ batch.now.items ∷ [] }) }
    {
        let mut seen = certificate.seen.again();
        let mut offer: Offer<HistoryCell, u64, HistoryRule, Nothing> = seen.plain::<
            Nothing,
            Vec<Edit>,
            Add,
        >(batch);
        let mut pen = seen.no_pen();
        let count = certificate.count as u64;
        let before = self
            .head
            .compare_exchange::<Add, Nothing>(count, count + 1, &mut seen, &mut offer, &mut pen);
        if before == count {
            Some(Certificate {
                count: certificate.count + 1,
                seen,
            })
        } else {
            None
        }
    }
}

impl Certificate {
    /// Returns how many batches there are.
    pub fn len(&self) -> u32
        ensures { result ≡ length self.now.batches }
    {
        self.count
    }

    /// Returns another certificate of the same batches. It takes no memory.
    pub fn again(&self) -> Certificate
        ensures { result ≡ self.now }
    {
        Certificate {
            count: self.count,
            seen: self.seen.again(),
        }
    }

    /// Becomes the other certificate, unless that one has fewer batches, and returns whether it
    /// did. If it did, the batches of the other one begin with those that this one had.
    pub fn follow(&mut self, later: Certificate) -> bool
        requires { later.book ≡ self.old.book }
        ensures { MatchBool result
            (Begins self.old.batches later.batches × (self.new ≡ later))
            ((self.new ≡ self.old) × (length later.batches < length self.old.batches)) }
    {
        if later.count < self.count {
            return false;
        }
        let mut both = self.seen.again();
        both.learn(&later.seen);
        *self = later;
        true
    }

    /// Becomes the longer one of the two certificates. Its batches begin with those of the other.
    pub fn learn(&mut self, other: Certificate)
        requires { other.book ≡ self.old.book }
        ensures book { self.new.book ≡ self.old.book }
        ensures later { IsLater self.old.batches other.batches self.new.batches }
    {
        let mut both = self.seen.again();
        both.learn(&other.seen);
        if self.count < other.count {
            *self = other;
        }
    }
}
