//! What is published: a register, with the certificate of the batches that it is made of.
ghost use Rattle.std.specs.Prelude.{◌≡◌, true, IfOk, OnErr};
ghost use Rattle.std.specs.Arc.{arc_value};
ghost use Rattle.osn_days.specs.Rules.{newest_rules};
ghost use Rattle.osn_register.specs.Answer.{takes_memory};
ghost use Rattle.osn_core.specs.Sequential.{territories_of, reply_at};

use crate::history::Certificate;
use left_right::Absorb;
use osn_core::Reply;
use osn_register::{Limits, Query, Register};
use std::alloc::AllocError;
use std::marker::Model;
use std::sync::Arc;

/// An edition: its register, which the copies of the edition share.
#[derive(Drop)]
pub struct Edition {
    limits: Limits,
    register: Arc<Register>,
    certificate: Certificate,
}

impl Model for Edition {
    ghost use Rattle.osn_live.specs.Running.{EditionState};

    ghost Value = { EditionState };

    ghost use Rattle.osn_live.specs.InsideEdition.{edition_in, HasRegister};

    ghost view = { edition_in };

    ghost invariant = { HasRegister };
}

/// What is done to a copy: it becomes the next edition.
impl Absorb<Edition> for Edition {
    type State = Edition;

    ghost state = { λ edition. edition };

    ghost applied = { λ edition next. next };

    fn absorb_first(&mut self, next: &Edition, _other: &Edition) -> Result<(), AllocError> {
        *self = next.share()?;
        Ok(())
    }

    fn absorb_second(&mut self, next: Edition, _other: &Edition) -> Result<(), Edition> {
        *self = next;
        Ok(())
    }
}

impl Edition {
    pub fn new(limits: Limits, register: Arc<Register>, certificate: Certificate) -> Edition
        requires { arc_value register ≡
            record {
              limits = limits;
              territories =
                  territories_of newest_rules limits certificate.batches;
            } }
        ensures { result ≡ record { limits = limits; certificate = certificate } }
    {
        Edition {
            limits,
            register,
            certificate,
        }
    }

    /// Returns another owner of the same edition. The register is not copied. Its owners are
    /// counted, and the call fails if they are too many.
    pub fn share(&self) -> Result<Edition, AllocError>
        ensures { IfOk result (λ edition. edition ≡ self.now) }
    {
        Ok(Edition {
            limits: self.limits,
            register: Arc::try_clone(&self.register)?,
            certificate: self.certificate.again(),
        })
    }

    pub fn certificate(&self) -> Certificate
        ensures { result ≡ self.now.certificate }
    {
        self.certificate.again()
    }

    /// Returns the reply to a query of this edition.
    pub fn ask(&self, query: &Query) -> Result<Reply, AllocError>
        ensures value { IfOk result (λ r.
            r ≡ reply_at newest_rules self.now.limits self.now.certificate.batches query.now) }
        ensures memory { OnErr result (takes_memory
            (reply_at newest_rules self.now.limits self.now.certificate.batches query.now).answer
            ≡ true) }
    {
        Ok(Reply {
            edition: self.certificate.len(),
            answer: self.register.answer(query)?,
        })
    }
}
